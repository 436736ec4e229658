//! `link OUT MODE [lib=F].. IN..` by example: each refusal, and beside it what just isn't refused.

mod blocks;
mod made;
mod rel_files;
mod relocs;
mod rows;
mod shown;
mod sizes;
mod symbols;
mod told;

use super::{Case, ORDINARY, check_over};
use crate::files::add;
use fd_base::MemStore;
use rows::Input::Text;
use rows::{ROW, Row, check_rows};
use std::test::Fail;

const TWO: &str = "link s static a.o b.o";

const TWO_SHARED: &str = "link s shared a.o b.o";

const SHARED: &str = "link s shared a.o";

const PROGRAM: &str = "link s program a.o";

/// A program that ends at once.
const ENDING: &str = ".global _start\n_start: svc #0";

/// Names. Each is tested as it first appears, by inputs and then by their symbols.
const NAMES: [Row; 19] = [
    Row {
        a: Text(".global _start\n_start: svc #0\n.data\n.global d\nd: .word 1"),
        b: Text(".data\n.global d\nd: .word 2"),
        words: TWO,
        err: "fdpic: link Twice d\n",
        ..ROW
    },
    Row {
        a: Text(".global _start\n_start: svc #0\n.data\n.global d\nd: .word 1"),
        b: Text(".data\n.weak d\nd: .word 2"),
        words: TWO,
        ..ROW
    },
    // two functions of one name, in each mode
    Row {
        a: Text(".global a\na: bx lr"),
        b: Text(".global a\na: bx lr"),
        words: TWO,
        err: "fdpic: link Twice a\n",
        ..ROW
    },
    Row {
        a: Text(".global a\na: bx lr"),
        b: Text(".global a\na: bx lr"),
        words: "link s program a.o b.o",
        err: "fdpic: link Twice a\n",
        ..ROW
    },
    Row {
        a: Text(".global a\na: bx lr"),
        b: Text(".global a\na: bx lr"),
        words: TWO_SHARED,
        err: "fdpic: link Twice a\n",
        ..ROW
    },
    Row {
        a: Text(".weak a\na: bx lr"),
        b: Text(".weak a\na: bx lr"),
        words: TWO_SHARED,
        ..ROW
    },
    Row {
        a: Text(".global _start\n_start: bl foo"),
        err: "fdpic: link Undefined foo\n",
        ..ROW
    },
    Row {
        a: Text(".global _start\n.weak foo\n_start: bl foo"),
        ..ROW
    },
    // a library doesn't take part in a program that stands alone
    Row {
        a: Text(".global _start\n_start: bl foo"),
        words: "link s static lib=l.so a.o",
        err: "fdpic: link Undefined foo\n",
        ..ROW
    },
    // another module can define a name, but not a hidden one
    Row {
        a: Text(".global _start\n_start: bl foo"),
        words: PROGRAM,
        ..ROW
    },
    Row {
        a: Text(".global _start\n.hidden foo\n_start: bl foo"),
        words: "link s program lib=l.so a.o",
        err: "fdpic: link Undefined foo\n",
        ..ROW
    },
    Row {
        a: Text(".hidden foo\n bl foo"),
        words: SHARED,
        err: "fdpic: link Undefined foo\n",
        ..ROW
    },
    // of its visibilities the most constraining one counts
    Row {
        a: Text(" bl foo"),
        b: Text(".hidden foo\n bl foo"),
        words: TWO_SHARED,
        err: "fdpic: link Undefined foo\n",
        ..ROW
    },
    Row {
        a: Text(".hidden foo\n.weak foo\n bl foo"),
        words: SHARED,
        ..ROW
    },
    // of two names the first that appears, defined or not
    Row {
        a: Text(".global _start\n_start: bl z\n bl y"),
        err: "fdpic: link Undefined z\n",
        ..ROW
    },
    Row {
        a: Text(".global _start\n_start: bl z"),
        b: Text(" bl y"),
        words: "link s static b.o a.o",
        err: "fdpic: link Undefined y\n",
        ..ROW
    },
    Row {
        a: Text(".global d\nd: bl foo"),
        b: Text(".global d\nd: bx lr"),
        words: TWO,
        err: "fdpic: link Twice d\n",
        ..ROW
    },
    Row {
        a: Text(" bl foo\n.global d\nd: bx lr"),
        b: Text(".global d\nd: bx lr"),
        words: TWO,
        err: "fdpic: link Undefined foo\n",
        ..ROW
    },
    // names come before relocations, of which the first is refused here
    Row {
        a: Text(".global _start\n_start: .word d\n bl foo\n.data\nd: .word 0"),
        err: "fdpic: link Undefined foo\n",
        ..ROW
    },
];

/// Entries: at a multiple of 4 in code that isn't written to, or at its end.
const ENTRIES: [Row; 8] = [
    Row {
        a: Text(".global start\nstart: svc #0"),
        err: "fdpic: link NoEntry\n",
        ..ROW
    },
    Row {
        a: Text(".global start\nstart: svc #0"),
        words: PROGRAM,
        err: "fdpic: link NoEntry\n",
        ..ROW
    },
    Row {
        a: Text(".global start\nstart: svc #0"),
        words: SHARED,
        ..ROW
    },
    Row {
        a: Text(".data\n.global _start\n_start: .word 0"),
        err: "fdpic: link NoEntry\n",
        ..ROW
    },
    Row {
        a: Text(".rodata\n.global _start\n_start: .word 0"),
        err: "fdpic: link NoEntry\n",
        ..ROW
    },
    Row {
        a: Text(".byte 0\n.byte 0\n.global _start\n_start: .byte 0"),
        err: "fdpic: link NoEntry\n",
        ..ROW
    },
    Row {
        a: Text("_start: svc #0\n.data\n.word _start"),
        err: "fdpic: link NoEntry\n",
        ..ROW
    },
    Row {
        a: Text(" svc #0\n.global _start\n_start:"),
        then: "show s",
        out: "object exec entry 0x00000004 got 0x00010000
segment 0 0x00000000 0x00000004 0x00000004 5 16
segment 1 0x00010000 0x0000000c 0x0000000c 6 16
segment 2 0x00011000 0x0000004c 0x0000004c 4 16
",
        ..ROW
    },
];

/// Files, in the order of the words.
const FILES: [Row; 8] = [
    Row {
        a: Text(ENDING),
        words: "link s static a.o a.s",
        err: "fdpic: link Elf 1\n",
        ..ROW
    },
    Row {
        a: Text(ENDING),
        words: "link s static a.o l.so none",
        err: "fdpic: link Elf 1\n",
        ..ROW
    },
    Row {
        a: Text(ENDING),
        words: "link s static lib=a.o a.o",
        err: "fdpic: link LibElf 0\n",
        ..ROW
    },
    Row {
        a: Text(ENDING),
        words: "link s program lib=l.so lib=a.o a.s",
        err: "fdpic: link LibElf 1\n",
        ..ROW
    },
    Row {
        a: Text(ENDING),
        words: "link s static a.o none",
        err: "fdpic: no file none\n",
        ..ROW
    },
    Row {
        a: Text(ENDING),
        words: "link s program lib=none a.s",
        err: "fdpic: no file none\n",
        ..ROW
    },
    // nothing behind `lib=` is no library, and so an input of that name
    Row {
        a: Text(ENDING),
        words: "link s program lib= a.o",
        err: "fdpic: no file lib=\n",
        ..ROW
    },
    Row {
        a: Text(ENDING),
        words: "link s program lib=l.so a.o",
        ..ROW
    },
];

/// Words that have no listed form.
const UNLISTED: [&[u8]; 6] = [
    b"link s",
    b"link s static",
    b"link s static lib=a.o",
    b"link s dynamic a.o",
    b"link static s a.o",
    b"link",
];

#[test]
fn names_of_links(rt: HostRuntime) -> Result<(), Fail> {
    check_rows(&rt, rt.alloc(), &NAMES)
}

#[test]
fn entries_of_links(rt: HostRuntime) -> Result<(), Fail> {
    check_rows(&rt, rt.alloc(), &ENTRIES)
}

#[test]
fn files_of_links(rt: HostRuntime) -> Result<(), Fail> {
    check_rows(&rt, rt.alloc(), &FILES)
}

#[test]
fn words_of_links(rt: HostRuntime) -> Result<(), Fail> {
    for words in UNLISTED {
        let case = Case {
            words,
            status: 2,
            err: b"fdpic: words\n",
            ..ORDINARY
        };
        check_over(&rt, rt.alloc(), &mut MemStore::new(rt.alloc()), &case)?;
    }
    Ok(())
}

/// Words over a file `long` of one byte too many, and what is said of it.
const LONG: [(&[u8], &[u8]); 4] = [
    (b"link s static long", b"fdpic: too long long\n"),
    (b"link s static long none", b"fdpic: too long long\n"),
    (b"link s static none long", b"fdpic: no file none\n"),
    (b"link s shared lib=long none", b"fdpic: too long long\n"),
];

#[test]
fn inputs_that_are_too_long(rt: HostRuntime) -> Result<(), Fail> {
    let alloc = rt.alloc();
    let long = vec![in alloc; 0u8; 4_194_305]?;
    let mut store = MemStore::new(alloc);
    add(&mut store, alloc, b"long", &long)?;
    for (words, err) in LONG {
        let case = Case {
            words,
            status: 5,
            err,
            ..ORDINARY
        };
        check_over(&rt, alloc, &mut store, &case)?;
    }
    Ok(())
}
