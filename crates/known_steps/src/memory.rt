ghost use Rattle.std.specs.Prelude.{◌≡◌, ◌+◌, ◌≤◌, length, None};
ghost use Rattle.guest_mem.specs.Memory.{HaveKind};

use crate::checks::{same, same_at};
use fd_base::Memory;
use guest_mem::{Access, Guest, MemKind};
use std::alloc::Global;
use std::process::Abort;
use std::test::Fail;

/// An access and its answer: the width of a number, the address, and for a write the number.
#[derive(Clone, Copy)]
enum Case {
    Read(u32, u32, Result<u32, Access>),
    Fetch(u32, Result<u32, Access>),
    Write(u32, u32, u32, Result<(), Access>),
}

fn read(guest: &Guest, width: u32, addr: u32) -> Result<u32, Access> {
    match width {
        1 => Ok(guest.read8(addr)? as u32),
        2 => Ok(guest.read16(addr)? as u32),
        _ => guest.read32(addr),
    }
}

fn write(guest: &mut Guest, width: u32, addr: u32, v: u32) -> Result<(), Access> {
    match width {
        1 => guest.write8(addr, (v % 256) as u8),
        2 => guest.write16(addr, (v % 65536) as u16),
        _ => guest.write32(addr, v),
    }
}

/// Accesses in their order, to the memory that `guest` gives.
const CASES: [Case; 28] = [
    Case::Fetch(4, Ok(0xe50000ef)),
    Case::Fetch(6, Err(Access::Unaligned(6))),
    Case::Fetch(0x10, Err(Access::Fault(0x10))),
    Case::Fetch(0x20, Err(Access::Fault(0x20))),
    Case::Fetch(0x40, Err(Access::Fault(0x40))),
    Case::Read(4, 4, Ok(0xe50000ef)),
    Case::Read(4, 0x20, Ok(0x8000)),
    Case::Read(2, 6, Ok(0xe500)),
    Case::Read(1, 7, Ok(0xe5)),
    Case::Read(4, 0x29, Err(Access::Unaligned(0x29))),
    Case::Read(2, 0x29, Err(Access::Unaligned(0x29))),
    Case::Read(1, 0x29, Err(Access::Fault(0x29))),
    Case::Read(4, 0x28, Err(Access::Fault(0x28))),
    Case::Read(4, 0xfffffffc, Err(Access::Fault(0xfffffffc))),
    Case::Write(4, 0x14, 0x04030201, Ok(())),
    Case::Read(1, 0x15, Ok(2)),
    Case::Read(2, 0x16, Ok(0x0403)),
    Case::Write(2, 0x1c, 0xabcd, Ok(())),
    Case::Write(1, 0x1d, 0x12, Ok(())),
    Case::Read(4, 0x1c, Ok(0x12cd)),
    Case::Write(4, 0x18, 1, Err(Access::Stray(0x18))),
    Case::Write(2, 0x1a, 1, Err(Access::Stray(0x1a))),
    Case::Write(1, 0x1b, 1, Err(Access::Stray(0x1b))),
    Case::Read(4, 0x18, Ok(0)),
    Case::Write(4, 0, 1, Err(Access::Stray(0))),
    Case::Write(4, 0x24, 1, Err(Access::Stray(0x24))),
    Case::Write(4, 0x22, 1, Err(Access::Unaligned(0x22))),
    Case::Write(1, 0x28, 1, Err(Access::Fault(0x28))),
];

/// Code from 0, Data from 0x10 of which 0x18 to 0x1b is watched, Fixed from 0x20, nothing from 0x28, and the end at 0x40.
fn guest(alloc: Global) -> Result<Guest, Memory> {
    let mut guest = Guest::new(alloc, 0x40)?;
    guest.map(0, 0x10, MemKind::Code);
    guest.map(0x10, 0x10, MemKind::Data);
    guest.map(0x20, 8, MemKind::Fixed);
    guest.watch(0x18, 4);
    guest.poke(4, 0xef);
    guest.poke(7, 0xe5);
    guest.poke(0x21, 0x80);
    Ok(guest)
}

fn is_answered(rt: &impl Abort, guest: &mut Guest, case: Case) {
    match case {
        Case::Read(width, addr, want) => same_at(rt, addr, read(guest, width, addr), want),
        Case::Fetch(addr, want) => same_at(rt, addr, guest.fetch(addr), want),
        Case::Write(width, addr, v, want) => {
            same_at(rt, addr, write(guest, width, addr, v), want);
        }
    }
}

fn words_are_answered(rt: &impl Abort, guest: &mut Guest) {
    for (addr, want) in [
        (0x14, Access::Stray(0x18)),
        (0x24, Access::Fault(0x28)),
        (0x12, Access::Unaligned(0x12)),
    ] {
        same_at(rt, addr, guest.write_words(addr, &[5, 6]), Err(want));
    }
    let mut words = [0; 3];
    same(rt, guest.read_words(0x14, &mut words), Ok(()));
    same(rt, words, [0x04030201, 0, 0x12cd]);
    let refused = guest.read_words(0x20, &mut words);
    same(rt, refused, Err(Access::Fault(0x28)));
    same(rt, words, [0x04030201, 0, 0x12cd]);
    same(rt, guest.write_words(0x10, &[7, 8]), Ok(()));
    same(rt, guest.read32(0x14), Ok(8));
}

#[test]
fn accesses_in_their_order(rt: HostRuntime) -> Result<(), Fail> {
    let mut guest = guest(rt.alloc())?;
    for case in CASES {
        is_answered(&rt, &mut guest, case);
    }
    words_are_answered(&rt, &mut guest);
    Ok(())
}
