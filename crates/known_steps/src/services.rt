//! Services by example.

use crate::checks::{holds, same};
use a32_machine::Cpu;
use fd_base::Memory;
use guest_mem::{Guest, MemKind};
use run_model::{Served, Stop};
use run_turn::*;
use std::alloc::Global;
use std::process::Abort;
use std::test::Fail;

/// A memory of 0x4000 bytes, of which those from 0x1000 to 0x3000 are mapped.
fn guest(alloc: Global) -> Result<Guest, Memory> {
    let mut guest = Guest::new(alloc, 0x4000)?;
    guest.map(0x1000, 0x2000, MemKind::Data);
    Ok(guest)
}

/// Registers with these arguments.
fn cpu(arguments: [u32; 2]) -> Cpu {
    let mut r = [0x55; 16];
    r[0] = arguments[0];
    r[1] = arguments[1];
    r[15] = 0x2004;
    Cpu {
        r,
        n: true,
        z: false,
        c: true,
        v: false,
    }
}

/// Asks for a service with these arguments after a refusal with code 33, and tells r0 and the code of the last
/// refusal after it. All else of the cpu stays.
fn asked(
    rt: &impl Abort,
    alloc: Global,
    number: u32,
    arguments: [u32; 2],
) -> Result<(Served, u32, u32), Fail> {
    let mut guest = guest(alloc)?;
    let _ = guest.write32(0x2ffc, 0x6463_6261);
    let mut after = cpu(arguments);
    let mut refusal = 33;
    let served = serve(alloc, number, &mut after, &mut refusal, &guest)?;
    let answer = after.r[0];
    after.r[0] = arguments[0];
    holds(rt, after == cpu(arguments));
    Ok((served, answer, refusal))
}

/// What a service comes to: its word and its value.
fn told(served: &Served) -> (&'static [u8], usize) {
    match served {
        Served::Went => (b"went", 0),
        Served::Wrote(bytes) => (b"wrote", bytes.len()),
        Served::Yielded => (b"yielded", 0),
        Served::Finished(value) => (b"finished", *value as usize),
        Served::Exited(value) => (b"exited", *value as usize),
        Served::Stopped(Stop::Fault(at)) => (b"fault", *at as usize),
        Served::Stopped(Stop::Service(number)) => (b"service", *number as usize),
        Served::Stopped(_) => (b"stopped", 0),
    }
}

/// A service with these arguments comes to this, with r0 and the code of the last refusal after it.
fn comes_to(
    rt: &impl Abort,
    alloc: Global,
    (number, arguments): (u32, [u32; 2]),
    outcome: (&[u8], usize),
    after: [u32; 2],
) -> Result<(), Fail> {
    let (served, r0, refusal) = asked(rt, alloc, number, arguments)?;
    same(rt, told(&served), outcome);
    same(rt, [r0, refusal], after);
    Ok(())
}

#[test]
fn services_come_to(rt: HostRuntime) -> Result<(), Fail> {
    let alloc = rt.alloc();
    // the number and the arguments; what it comes to, and r0 and the code of the last refusal after it
    let cases: [(u32, [u32; 2], (&[u8], usize), [u32; 2]); 21] = [
        (0, [7, 8], (b"exited", 7), [7, 33]),
        (6, [9, 8], (b"finished", 9), [9, 33]),
        (7, [9, 8], (b"yielded", 0), [9, 33]),
        (8, [9, 8], (b"went", 0), [33, 33]),
        (2, [9, 8], (b"service", 2), [9, 33]),
        (3, [9, 8], (b"service", 3), [9, 33]),
        (4, [9, 8], (b"service", 4), [9, 33]),
        (5, [9, 8], (b"service", 5), [9, 33]),
        (9, [9, 8], (b"service", 9), [9, 33]),
        (99, [9, 8], (b"service", 99), [9, 33]),
        (240, [9, 8], (b"service", 240), [9, 33]),
        (0xff_ffff, [9, 8], (b"service", 0xff_ffff), [9, 33]),
        (1, [0x2ffb, 5], (b"wrote", 5), [5, 33]),
        (1, [0xffff_ffff, 0], (b"wrote", 0), [0, 33]),
        (1, [0x1000, 4_096], (b"wrote", 4_096), [4_096, 33]),
        (1, [0x2ffc, 5], (b"fault", 0x3000), [0x2ffc, 33]),
        (1, [0xfff, 4], (b"fault", 0xfff), [0xfff, 33]),
        (
            1,
            [0xffff_ffff, 2],
            (b"fault", 0xffff_ffff),
            [0xffff_ffff, 33],
        ),
        (1, [0x3fff, 4_096], (b"fault", 0x3fff), [0x3fff, 33]),
        (1, [0x1000, 4_097], (b"went", 0), [0xffff_ffff, 51]),
        (1, [0, 4_097], (b"went", 0), [0xffff_ffff, 51]),
    ];
    for (number, arguments, outcome, after) in cases {
        comes_to(&rt, alloc, (number, arguments), outcome, after)?;
    }
    Ok(())
}

#[test]
fn bytes_are_put_out(rt: HostRuntime) -> Result<(), Fail> {
    let alloc = rt.alloc();
    let (served, _, _) = asked(&rt, alloc, 1, [0x2ffb, 5])?;
    match &served {
        Served::Wrote(bytes) => holds(&rt, bytes.as_slice() == b"\0abcd".as_slice()),
        _ => assert!(rt; false),
    }
    Ok(())
}
