//! Links of much.

use super::rel_files::{naming_file, pointing_file, using_file};
use super::rows::Input::Text;
use super::rows::{ROW, Row, check_rows, folder};
use crate::checks::same_at;
use crate::commands::{Case, ORDINARY, check_over, words_of};
use crate::files::add;
use fd_base::{Bytes, MemSink, MemStore};
use fdpic_cmd::top;
use std::alloc::Global;
use std::process::Abort;
use std::test::Fail;

/// Files of the greatest size. That of `s` has 208 bytes before its data, which are 12 of the GOT and its own; then from a
/// multiple of 16 on 76 of tables, 20 of names and 120 of headers of sections. So 4,193,860 bytes make 4,194,296, and one more
/// makes 4,194,312, where 4,194,304 is the most.
const SIZES: [Row; 2] = [
    Row {
        a: Text(".global _start\n_start: svc #0\n.data\n.space 4193860"),
        ..ROW
    },
    Row {
        a: Text(".global _start\n_start: svc #0\n.data\n.space 4193861"),
        err: "fdpic: link TooLarge\n",
        ..ROW
    },
];

#[test]
fn greatest_files(rt: HostRuntime) -> Result<(), Fail> {
    check_rows(&rt, rt.alloc(), &SIZES)
}

/// How many libraries a link is over, the words before them, and what is said of it. A program that stands alone needs none.
const LIBRARIES: [(usize, &[u8], &[u8]); 3] = [
    (64, b"link s program", b""),
    (65, b"link s program", b"fdpic: link TooLarge\n"),
    (65, b"link s static", b""),
];

/// Words, so many times a library, and an input.
fn words_over(alloc: Global, words: &[u8], count: usize) -> Result<Vec<Bytes>, Fail> {
    let mut words = words_of(alloc, words)?;
    for _ in 0..count {
        words.push(Bytes::from_slice(alloc, b"lib=l.so")?)?;
    }
    words.push(Bytes::from_slice(alloc, b"a.o")?)?;
    Ok(words)
}

fn check_libraries(
    rt: &impl Abort,
    alloc: Global,
    store: &mut MemStore,
    (count, words, wanted): (usize, &[u8], &[u8]),
) -> Result<(), Fail> {
    let words = words_over(alloc, words, count)?;
    let mut out = MemSink::new(alloc);
    let mut err = MemSink::new(alloc);
    let status = top(alloc, words.as_slice(), store, &mut out, &mut err);
    same_at(rt, count, err.bytes(), wanted);
    same_at(
        rt,
        count,
        status.code(),
        if wanted.is_empty() { 0 } else { 5 },
    );
    Ok(())
}

#[test]
fn most_libraries(rt: HostRuntime) -> Result<(), Fail> {
    let alloc = rt.alloc();
    let row = Row {
        a: Text(".global _start\n_start: svc #0"),
        ..ROW
    };
    let mut store = folder(&rt, alloc, &row)?;
    for row in LIBRARIES {
        check_libraries(&rt, alloc, &mut store, row)?;
    }
    Ok(())
}

/// Links over much: the text of `b.o`, the words, and what is said of it.
type Much = (&'static str, &'static [u8], &'static [u8]);

const TOO_LARGE: &[u8] = b"fdpic: link TooLarge\n";

/// A program.
const ENDING: &str = ".global _start\n_start: svc #0";

/// Over a file of 65,536 addresses, which are as many relocations as an object has. Alone, a program has any number of fixups.
const ADDRESSES: [Much; 3] = [
    ("", b"link s program a.o", b""),
    (".data\nd: .word d", b"link s program a.o b.o", TOO_LARGE),
    (".data\nd: .word d", b"link s static a.o b.o", b""),
];

/// Over a file of 65,535 names. With the null symbol they are as many symbols as an object has, and alone a program has none.
const NAMES: [Much; 3] = [
    ("", b"link s shared a.o", b""),
    (ENDING, b"link s shared a.o b.o", TOO_LARGE),
    (ENDING, b"link s static a.o b.o", b""),
];

/// Over a file of 65,535 words of the GOT, where 65,536 are the most. They are counted before the entry is looked for.
const WORDS: [Much; 2] = [
    (
        ".global _start\n_start: svc #0\n.word _start(GOT)",
        b"link s static a.o b.o",
        b"",
    ),
    (
        ".global d\nd: svc #0\nl: .word d(GOT)\n.word l(GOT)",
        b"link s static a.o b.o",
        TOO_LARGE,
    ),
];

fn check_much(
    rt: &impl Abort,
    alloc: Global,
    bytes: &[u8],
    (text, words, err): Much,
) -> Result<(), Fail> {
    let row = Row {
        b: Text(text),
        ..ROW
    };
    let mut store = folder(rt, alloc, &row)?;
    add(&mut store, alloc, b"a.o", bytes)?;
    let case = Case {
        words,
        status: if err.is_empty() { 0 } else { 5 },
        err,
        ..ORDINARY
    };
    check_over(rt, alloc, &mut store, &case)
}

#[test]
fn most_relocations(rt: HostRuntime) -> Result<(), Fail> {
    let bytes = pointing_file(rt.alloc(), 65_536)?;
    for row in ADDRESSES {
        check_much(&rt, rt.alloc(), &bytes, row)?;
    }
    Ok(())
}

#[test]
fn most_names(rt: HostRuntime) -> Result<(), Fail> {
    let bytes = naming_file(rt.alloc(), 65_535)?;
    for row in NAMES {
        check_much(&rt, rt.alloc(), &bytes, row)?;
    }
    Ok(())
}

#[test]
fn most_words(rt: HostRuntime) -> Result<(), Fail> {
    let bytes = using_file(rt.alloc(), 65_535)?;
    for row in WORDS {
        check_much(&rt, rt.alloc(), &bytes, row)?;
    }
    Ok(())
}
