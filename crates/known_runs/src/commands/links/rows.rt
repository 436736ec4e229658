//! Links over one or two inputs, and what is then shown of them or run.

use super::rel_files::{Mark, Part, rel_file};
use crate::commands::{Case, ORDINARY, check_over};
use crate::files::{Image, add, change, file_of};
use fd_base::MemStore;
use std::alloc::Global;
use std::process::Abort;
use std::test::Fail;

/// How an input is made.
#[derive(Clone, Copy)]
pub enum Input {
    /// It isn't there.
    Missing,
    /// By the assembler.
    Text(&'static str),
    /// By the assembler, with bytes of the file then changed.
    Changed(&'static str, &'static [(usize, u8)]),
    /// Of these sections and symbols.
    Made(&'static [Part], &'static [Mark]),
}

/// The inputs `a.o` and `b.o`; the words of a link over them, and what is said of it; and where it is put, words that then print
/// something.
#[derive(Clone, Copy)]
pub struct Row {
    pub a: Input,
    pub b: Input,
    pub words: &'static str,
    pub err: &'static str,
    pub then: &'static str,
    pub out: &'static str,
}

pub const ROW: Row = Row {
    a: Input::Missing,
    b: Input::Missing,
    words: "link s static a.o",
    err: "",
    then: "",
    out: "",
};

/// A library of one function, which is `l.so`.
const LIBRARY: &[u8] = b".global foo\n.type foo func\nfoo: mov r0, #7\n bx lr\n";

const JOB: &[u8] = b"fdpic-job 1\nprogram s\nmemory 393216\nmode eager
place s 0x20000 0x30000\nplace l.so 0x40000 0x50000\n";

/// The names of a text and of its file, and the words that make the one of the other.
#[derive(Clone, Copy)]
struct Names {
    text: &'static [u8],
    file: &'static [u8],
    words: &'static [u8],
}

const A: Names = Names {
    text: b"a.s",
    file: b"a.o",
    words: b"as a.o a.s",
};

const B: Names = Names {
    text: b"b.s",
    file: b"b.o",
    words: b"as b.o b.s",
};

const L: Names = Names {
    text: b"l.s",
    file: b"l.o",
    words: b"as l.o l.s",
};

/// These words go well, and print nothing.
fn goes(
    rt: &impl Abort,
    alloc: Global,
    store: &mut MemStore,
    words: &'static [u8],
) -> Result<(), Fail> {
    let case = Case { words, ..ORDINARY };
    check_over(rt, alloc, store, &case)
}

fn assemble(
    rt: &impl Abort,
    alloc: Global,
    store: &mut MemStore,
    text: &[u8],
    names: &Names,
) -> Result<(), Fail> {
    add(store, alloc, names.text, text)?;
    goes(rt, alloc, store, names.words)
}

fn put_input(
    rt: &impl Abort,
    alloc: Global,
    store: &mut MemStore,
    input: &Input,
    names: &Names,
) -> Result<(), Fail> {
    match input {
        Input::Missing => Ok(()),
        Input::Text(text) => assemble(rt, alloc, store, text.as_bytes(), names),
        Input::Changed(text, changes) => {
            assemble(rt, alloc, store, text.as_bytes(), names)?;
            change(store, alloc, names.file, changes)
        }
        Input::Made(parts, marks) => {
            let bytes = rel_file(alloc, parts, marks)?;
            add(store, alloc, names.file, &bytes)
        }
    }
}

/// A folder with the inputs of a row, a library and a job.
pub fn folder(rt: &impl Abort, alloc: Global, row: &Row) -> Result<MemStore, Fail> {
    let mut store = MemStore::new(alloc);
    fill(rt, alloc, &mut store, row)?;
    Ok(store)
}

fn fill(rt: &impl Abort, alloc: Global, store: &mut MemStore, row: &Row) -> Result<(), Fail> {
    put_input(rt, alloc, store, &row.a, &A)?;
    put_input(rt, alloc, store, &row.b, &B)?;
    add(store, alloc, b"s.job", JOB)?;
    assemble(rt, alloc, store, LIBRARY, &L)?;
    goes(rt, alloc, store, b"link l.so shared l.o")
}

/// What a link that is refused leaves behind.
const NOT_THERE: Case = Case {
    words: b"show s",
    status: 5,
    err: b"fdpic: no file s\n",
    ..ORDINARY
};

fn check_row(rt: &impl Abort, alloc: Global, row: &Row) -> Result<(), Fail> {
    let mut store = folder(rt, alloc, row)?;
    let linking = Case {
        words: row.words.as_bytes(),
        status: if row.err.is_empty() { 0 } else { 5 },
        err: row.err.as_bytes(),
        ..ORDINARY
    };
    check_over(rt, alloc, &mut store, &linking)?;
    let printing = Case {
        words: row.then.as_bytes(),
        out: row.out.as_bytes(),
        ..ORDINARY
    };
    if !row.err.is_empty() {
        check_over(rt, alloc, &mut store, &NOT_THERE)
    } else if row.then.is_empty() {
        Ok(())
    } else {
        check_over(rt, alloc, &mut store, &printing)
    }
}

/// Checks each row.
pub fn check_rows(rt: &impl Abort, alloc: Global, rows: &[Row]) -> Result<(), Fail> {
    for row in rows {
        check_row(rt, alloc, row)?;
    }
    Ok(())
}

/// Checks that the file that a row links ends with these words.
pub fn ends_with(rt: &impl Abort, alloc: Global, row: &Row, words: &[u32]) -> Result<(), Fail> {
    let mut store = folder(rt, alloc, row)?;
    goes(rt, alloc, &mut store, row.words.as_bytes())?;
    let bytes = file_of(&mut store, alloc, b"s")?;
    let mut tail = Image::new(alloc);
    tail.words(words)?;
    assert!(rt; bytes.ends_with(&tail.bytes), "at {}", row.words);
    Ok(())
}
