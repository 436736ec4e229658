//! The line of each kind of event.

use crate::checks::same;
use elf_model::Func;
use fd_base::{Bytes, Name};
use run_model::{Event, Stop};
use run_report::*;
use std::alloc::Global;
use std::process::Abort;
use std::test::Fail;

fn name(alloc: Global, bytes: &[u8]) -> Result<Name, Fail> {
    Ok(Name::new(alloc, bytes)?)
}

/// The event has this line.
fn reads(rt: &impl Abort, alloc: Global, event: Event, line: &[u8]) -> Result<(), Fail> {
    let mut out = Bytes::new(alloc);
    put_event(&mut out, &event)?;
    same(rt, out.as_slice(), line);
    Ok(())
}

/// A function of module 1.
const FOO: Func = Func {
    module: 1,
    value: 0,
};

#[test]
fn lines_with_names_and_bytes(rt: HostRuntime) -> Result<(), Fail> {
    let alloc = rt.alloc();
    reads(
        &rt,
        alloc,
        Event::Load {
            number: 0,
            name: name(alloc, b"prog")?,
        },
        b"load 0 prog\n",
    )?;
    reads(
        &rt,
        alloc,
        Event::Load {
            number: 1,
            name: name(alloc, b"f o.so")?,
        },
        b"load 1 f%20o.so\n",
    )?;
    reads(
        &rt,
        alloc,
        Event::Out {
            step: 3,
            thread: 1,
            bytes: Bytes::from_slice(alloc, b"\x00\xafz")?,
        },
        b"out 3 1 00af7a\n",
    )?;
    reads(
        &rt,
        alloc,
        Event::Out {
            step: 4,
            thread: 1,
            bytes: Bytes::new(alloc),
        },
        b"out 4 1 -\n",
    )?;
    reads(
        &rt,
        alloc,
        Event::Open {
            step: 5,
            thread: 0,
            name: Some(name(alloc, b"c.so")?),
            answer: Ok(1),
        },
        b"open 5 0 c.so ok 1\n",
    )?;
    reads(
        &rt,
        alloc,
        Event::Sym {
            step: 7,
            thread: 0,
            handle: 1,
            name: Some(name(alloc, b"foo")?),
            answer: Ok(0x3000),
        },
        b"sym 7 0 1 foo ok 0x00003000\n",
    )?;
    Ok(())
}

#[test]
fn lines_of_numbers(rt: HostRuntime) -> Result<(), Fail> {
    let alloc = rt.alloc();
    reads(
        &rt,
        alloc,
        Event::Skipped { number: 1 },
        b"skipped init 1\n",
    )?;
    reads(
        &rt,
        alloc,
        Event::Enter {
            step: 1,
            thread: 0,
            number: 0,
            slot: 0,
        },
        b"enter 1 0 0 0\n",
    )?;
    reads(
        &rt,
        alloc,
        Event::Bind {
            step: 10,
            number: 0,
            slot: 0,
            function: Some(FOO),
        },
        b"bind 10 0 0 1 0x00000000\n",
    )?;
    reads(
        &rt,
        alloc,
        Event::Bind {
            step: 10,
            number: 0,
            slot: 1,
            function: None,
        },
        b"bind 10 0 1 none\n",
    )?;
    reads(
        &rt,
        alloc,
        Event::Arrive {
            step: 12,
            thread: 0,
            at: FOO,
        },
        b"arrive 12 0 1 0x00000000\n",
    )?;
    reads(
        &rt,
        alloc,
        Event::Open {
            step: 6,
            thread: 0,
            name: None,
            answer: Err(10),
        },
        b"open 6 0 - no 10\n",
    )?;
    reads(
        &rt,
        alloc,
        Event::Sym {
            step: 8,
            thread: 0,
            handle: 9,
            name: None,
            answer: Err(23),
        },
        b"sym 8 0 9 - no 23\n",
    )?;
    reads(
        &rt,
        alloc,
        Event::Close {
            step: 9,
            thread: 0,
            handle: 1,
            answer: Ok(()),
        },
        b"close 9 0 1 ok\n",
    )?;
    reads(&rt, alloc, Event::Gone { number: 1 }, b"gone 1\n")?;
    reads(
        &rt,
        alloc,
        Event::Close {
            step: 10,
            thread: 0,
            handle: 1,
            answer: Err(31),
        },
        b"close 10 0 1 no 31\n",
    )?;
    reads(
        &rt,
        alloc,
        Event::Start {
            step: 3,
            thread: 0,
            answer: Ok(1),
        },
        b"start 3 0 ok 1\n",
    )?;
    reads(
        &rt,
        alloc,
        Event::Start {
            step: 4,
            thread: 0,
            answer: Err(42),
        },
        b"start 4 0 no 42\n",
    )?;
    reads(
        &rt,
        alloc,
        Event::Done {
            step: 17,
            thread: 0,
            value: 7,
        },
        b"done 17 0 7\n",
    )?;
    reads(
        &rt,
        alloc,
        Event::Exit {
            step: 18,
            thread: 1,
            value: 4_294_967_295,
        },
        b"exit 18 1 4294967295\n",
    )?;
    reads(&rt, alloc, Event::End { step: 19 }, b"end 19\n")?;
    Ok(())
}

#[test]
fn lines_of_stops(rt: HostRuntime) -> Result<(), Fail> {
    let lines: [(Stop, &[u8]); 7] = [
        (Stop::Stray(0x3_0008), b"stop 7 1 stray 0x00030008\n"),
        (Stop::Fault(0), b"stop 7 1 fault 0x00000000\n"),
        (
            Stop::Undefined(0xf57f_f05f),
            b"stop 7 1 undefined 0xf57ff05f\n",
        ),
        (Stop::Unaligned(2), b"stop 7 1 unaligned 0x00000002\n"),
        (Stop::Service(99), b"stop 7 1 service 99\n"),
        (Stop::Resolve, b"stop 7 1 resolve\n"),
        (Stop::Limit, b"limit 7\n"),
    ];
    for (stop, line) in lines {
        let event = Event::Stopped {
            step: 7,
            thread: 1,
            stop,
        };
        reads(&rt, rt.alloc(), event, line)?;
    }
    Ok(())
}

/// Lines come one behind the other.
#[test]
fn lines_of_several_events(rt: HostRuntime) -> Result<(), Fail> {
    let mut report = Bytes::new(rt.alloc());
    put_events(
        &mut report,
        &[Event::Gone { number: 1 }, Event::End { step: 19 }],
    )?;
    put_events(&mut report, &[Event::Skipped { number: 2 }])?;
    let lines = b"gone 1\nend 19\nskipped init 2\n";
    same(&rt, report.as_slice(), lines.as_slice());
    Ok(())
}
