//! `as OUT IN` by example.

use super::{Case, ORDINARY, check_over};
use crate::files::add;
use fd_base::MemStore;
use std::alloc::Global;
use std::process::Abort;
use std::test::Fail;

/// A text, what `as a.o a.s` comes to over it, and then the listing of `a.o`, which isn't there where that is empty.
#[derive(Clone, Copy)]
struct Row {
    text: &'static str,
    store_fails_at: u32,
    status: u8,
    err: &'static str,
    listing: &'static str,
}

const ROW: Row = Row {
    text: "",
    store_fails_at: 0,
    status: 0,
    err: "",
    listing: "",
};

const NOT_THERE: Case = Case {
    words: b"show a.o",
    status: 5,
    err: b"fdpic: no file a.o\n",
    ..ORDINARY
};

/// Texts with the listings of their files.
const ASSEMBLED: [(&str, &str); 4] = [
    (
        " mvn r0, #0",
        "relocatable
section 0 .text 1 6 4 4
symbol 0 - local notype default undef 0x00000000 0
",
    ),
    (
        "",
        "relocatable
symbol 0 - local notype default undef 0x00000000 0
",
    ),
    (
        ".text
.global foo
.type foo func
foo: mov r0, #7
 bx lr
",
        "relocatable
section 0 .text 1 6 8 4
symbol 0 - local notype default undef 0x00000000 0
symbol 1 foo global func default section 0 0x00000000 0
",
    ),
    (
        ".text
.global _start
_start: bl foo
 svc #0
",
        "relocatable
section 0 .text 1 6 8 4
rel 0 0x00000000 28 2
symbol 0 - local notype default undef 0x00000000 0
symbol 1 _start global notype default section 0 0x00000000 0
symbol 2 foo global notype default undef 0x00000000 0
",
    ),
];

/// Texts that are refused, and what is said of them. The file of the last would be 4,194,304 bytes of `.text` between a header of
/// 52 and 250 of tables: a symbol of 16, strings of 1 and of 33, and 5 section headers of 40.
const REFUSED: [(&str, &str); 7] = [
    (" frob r0", "fdpic: asm Mnemonic line 1\n"),
    ("\n mov r0", "fdpic: asm Operand line 2\n"),
    ("\n\n mov r0, #0x101", "fdpic: asm Range line 3\n"),
    (".foo", "fdpic: asm Directive line 1\n"),
    ("\na:\n\n\na:", "fdpic: asm LabelTwice line 5\n"),
    (" ldr r0, far", "fdpic: asm NoLabel line 1\n"),
    (".space 4194304", "fdpic: output too long 4194606\n"),
];

fn check_row(rt: &impl Abort, alloc: Global, row: &Row) -> Result<(), Fail> {
    let mut store = MemStore::new(alloc);
    add(&mut store, alloc, b"a.s", row.text.as_bytes())?;
    let assembling = Case {
        words: b"as a.o a.s",
        store_fails_at: row.store_fails_at,
        status: row.status,
        err: row.err.as_bytes(),
        ..ORDINARY
    };
    check_over(rt, alloc, &mut store, &assembling)?;
    let showing = Case {
        words: b"show a.o",
        out: row.listing.as_bytes(),
        ..ORDINARY
    };
    let then = if row.listing.is_empty() {
        NOT_THERE
    } else {
        showing
    };
    check_over(rt, alloc, &mut store, &then)
}

#[test]
fn texts_are_assembled(rt: HostRuntime) -> Result<(), Fail> {
    for (text, listing) in ASSEMBLED {
        let row = Row {
            text,
            listing,
            ..ROW
        };
        check_row(&rt, rt.alloc(), &row)?;
    }
    Ok(())
}

#[test]
fn texts_are_refused(rt: HostRuntime) -> Result<(), Fail> {
    for (text, err) in REFUSED {
        let row = Row {
            text,
            status: 5,
            err,
            ..ROW
        };
        check_row(&rt, rt.alloc(), &row)?;
    }
    Ok(())
}

#[test]
fn stores_fail(rt: HostRuntime) -> Result<(), Fail> {
    for store_fails_at in [1, 2] {
        let row = Row {
            text: " mvn r0, #0",
            store_fails_at,
            status: 3,
            err: "fdpic: store fault\n",
            ..ROW
        };
        check_row(&rt, rt.alloc(), &row)?;
    }
    Ok(())
}
