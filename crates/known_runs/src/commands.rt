//! The program by example.

mod assemblies;
mod fixups;
mod links;
mod objects;
mod programs;
mod programs_linked;
mod runs;

use crate::checks::same_at;
use crate::files::add;
use fd_base::{Bytes, MemSink, MemStore, Name};
use fdpic_cmd::{Refusal, Status, top};
use objects::add_chain;
use std::alloc::Global;
use std::process::Abort;
use std::test::Fail;

/// Folders of files.
#[derive(Clone, Copy)]
enum Files {
    /// Objects and jobs.
    Objects,
    /// Programs that call a function, their libraries and jobs.
    Programs,
    /// Programs that call none, each with a job.
    Plain,
}

impl Files {
    fn store(self, alloc: Global) -> Result<MemStore, Fail> {
        match self {
            Files::Objects => objects::folder(alloc),
            Files::Programs => programs::folder(alloc),
            Files::Plain => programs::plain_folder(alloc),
        }
    }
}

/// What the program ends with, over a folder.
#[derive(Clone, Copy)]
struct Case {
    files: Files,
    words: &'static [u8],
    store_fails_at: u32,
    out_fails_at: u32,
    err_fails_at: u32,
    status: u8,
    out: &'static [u8],
    err: &'static [u8],
}

const ORDINARY: Case = Case {
    files: Files::Objects,
    words: b"",
    store_fails_at: 0,
    out_fails_at: 0,
    err_fails_at: 0,
    status: 0,
    out: b"",
    err: b"",
};

fn words_of(alloc: Global, text: &[u8]) -> Result<Vec<Bytes>, Fail> {
    let mut words = Vec::new(alloc);
    for word in text.split(|byte| *byte == b' ') {
        if !word.is_empty() {
            words.push(Bytes::from_slice(alloc, word)?)?;
        }
    }
    Ok(words)
}

/// These words print this, and all goes well.
fn prints(
    rt: &impl Abort,
    alloc: Global,
    files: Files,
    words: &'static [u8],
    out: &'static [u8],
) -> Result<(), Fail> {
    let case = Case {
        files,
        words,
        out,
        ..ORDINARY
    };
    check(rt, alloc, &case)
}

/// These words print this, and the run is stopped.
fn stops(
    rt: &impl Abort,
    alloc: Global,
    files: Files,
    words: &'static [u8],
    out: &'static [u8],
) -> Result<(), Fail> {
    let case = Case {
        files,
        words,
        status: 6,
        out,
        err: b"fdpic: stopped\n",
        ..ORDINARY
    };
    check(rt, alloc, &case)
}

/// These words print nothing, and end with this status and this line.
fn is_refused(
    rt: &impl Abort,
    alloc: Global,
    files: Files,
    words: &'static [u8],
    status: u8,
    err: &'static [u8],
) -> Result<(), Fail> {
    let case = Case {
        files,
        words,
        status,
        err,
        ..ORDINARY
    };
    check(rt, alloc, &case)
}

fn check(rt: &impl Abort, alloc: Global, case: &Case) -> Result<(), Fail> {
    check_over(rt, alloc, &mut case.files.store(alloc)?, case)
}

/// The standard output and the standard error.
#[derive(Drop)]
struct Outputs {
    out: MemSink,
    err: MemSink,
}

impl Outputs {
    fn new(alloc: Global, case: &Case) -> Result<Outputs, Fail> {
        Ok(Outputs {
            out: sink(alloc, case.out_fails_at)?,
            err: sink(alloc, case.err_fails_at)?,
        })
    }
}

fn sink(alloc: Global, fails_at: u32) -> Result<MemSink, Fail> {
    let mut sink = MemSink::new(alloc);
    sink.fail_at(fails_at)?;
    Ok(sink)
}

fn check_over(
    rt: &impl Abort,
    alloc: Global,
    store: &mut MemStore,
    case: &Case,
) -> Result<(), Fail> {
    store.fail_at(case.store_fails_at)?;
    let words = words_of(alloc, case.words)?;
    let Outputs { mut out, mut err } = Outputs::new(alloc, case)?;
    let status = top(alloc, words.as_slice(), store, &mut out, &mut err);
    same_at(rt, "the status", status.code(), case.status);
    same_at(rt, "the standard output", out.bytes(), case.out);
    same_at(rt, "the standard error", err.bytes(), case.err);
    Ok(())
}

#[test]
fn bind_prints_slot(rt: HostRuntime) -> Result<(), Fail> {
    let alloc = rt.alloc();
    prints(
        &rt,
        alloc,
        Files::Objects,
        b"bind f.so 0x20000 0x80000",
        b"",
    )?;
    prints(
        &rt,
        alloc,
        Files::Objects,
        b"bind e.so 0x20000 0x80000",
        b"slot 0 0 0x0008000c 0x00020300 0x00080000\n",
    )?;
    is_refused(
        &rt,
        alloc,
        Files::Objects,
        b"bind e.so 0x20000 0x20008",
        5,
        b"fdpic: load NoRoom 1\n",
    )?;
    is_refused(
        &rt,
        alloc,
        Files::Objects,
        b"bind short.so 0x20000 0x80000",
        5,
        b"fdpic: short.so elf Short at 51\n",
    )?;
    is_refused(
        &rt,
        alloc,
        Files::Objects,
        b"bind none 0x20000 0x80000",
        5,
        b"fdpic: no file none\n",
    )?;
    Ok(())
}

#[test]
fn slots_on_symbols_and_other_objects(rt: HostRuntime) -> Result<(), Fail> {
    let alloc = rt.alloc();
    prints(
        &rt,
        alloc,
        Files::Objects,
        b"bind local.so 0x20000 0x80000",
        b"slot 0 0 0x0008000c 0x00020300 0x00080000\n",
    )?;
    prints(
        &rt,
        alloc,
        Files::Objects,
        b"bind foo.so 0x20000 0x80000",
        b"",
    )?;
    prints(
        &rt,
        alloc,
        Files::Objects,
        b"bind main.so 0x20000 0x80000",
        b"slot 0 0 0x0008000c 0x00003200 0x00003210\n",
    )?;
    is_refused(
        &rt,
        alloc,
        Files::Objects,
        b"bind gone.so 0x20000 0x80000",
        5,
        b"fdpic: load NoFile foo.xx\n",
    )?;
    is_refused(
        &rt,
        alloc,
        Files::Objects,
        b"bind bar.so 0x20000 0x80000",
        5,
        b"fdpic: load Unresolved 0 bar\n",
    )?;
    is_refused(
        &rt,
        alloc,
        Files::Objects,
        b"bind data.so 0x20000 0x80000",
        5,
        b"fdpic: load NotCode 0 foo\n",
    )?;
    is_refused(
        &rt,
        alloc,
        Files::Objects,
        b"bind lost.so 0x20000 0x80000",
        5,
        b"fdpic: load BadAddress 0 0x0001000c\n",
    )?;
    is_refused(
        &rt,
        alloc,
        Files::Objects,
        b"show empty.so",
        5,
        b"fdpic: empty.so elf Short at 0\n",
    )?;
    is_refused(
        &rt,
        alloc,
        Files::Objects,
        b"show short.so",
        5,
        b"fdpic: short.so elf Short at 51\n",
    )?;
    is_refused(
        &rt,
        alloc,
        Files::Objects,
        b"show rela.so",
        5,
        b"fdpic: rela.so elf Rela at 496\n",
    )?;
    is_refused(
        &rt,
        alloc,
        Files::Objects,
        b"code none",
        5,
        b"fdpic: no file none\n",
    )?;
    Ok(())
}

#[test]
fn bind_loads_job(rt: HostRuntime) -> Result<(), Fail> {
    let alloc = rt.alloc();
    prints(
        &rt,
        alloc,
        Files::Objects,
        b"bind slot.job",
        b"slot 0 0 0x0008000c 0x00020300 0x00080000\n",
    )?;
    prints(
        &rt,
        alloc,
        Files::Objects,
        b"bind needing.job",
        b"slot 0 0 0x0008000c 0x00003200 0x00003210\n",
    )?;
    prints(
        &rt,
        alloc,
        Files::Objects,
        b"bind two.job",
        b"slot 0 0 0x0008000c 0x00040300 0x00050000\n",
    )?;
    is_refused(
        &rt,
        alloc,
        Files::Objects,
        b"bind full.job",
        5,
        b"fdpic: load DescriptorsFull 1\n",
    )?;
    let case = Case {
        words: b"bind needing.job",
        store_fails_at: 3,
        status: 3,
        err: b"fdpic: store fault\n",
        ..ORDINARY
    };
    check(&rt, alloc, &case)?;
    is_refused(
        &rt,
        alloc,
        Files::Objects,
        b"bind gone.job",
        5,
        b"fdpic: load NoFile gone\n",
    )?;
    is_refused(
        &rt,
        alloc,
        Files::Objects,
        b"bind short.job",
        5,
        b"fdpic: load Elf short.so Short at 51\n",
    )?;
    is_refused(
        &rt,
        alloc,
        Files::Objects,
        b"bind own.job",
        5,
        b"fdpic: load Elf own.job Ident at 0\n",
    )?;
    let case = Case {
        words: b"bind slot.job",
        store_fails_at: 2,
        status: 3,
        err: b"fdpic: store fault\n",
        ..ORDINARY
    };
    check(&rt, alloc, &case)?;
    Ok(())
}

#[test]
fn files_that_are_too_long(rt: HostRuntime) -> Result<(), Fail> {
    let alloc = rt.alloc();
    let long = vec![in alloc; 0u8; 4_194_305]?;
    for words in [
        b"bind long.so 0x20000 0x80000".as_slice(),
        b"bind long.so",
        b"run long.so",
    ] {
        let mut store = MemStore::new(alloc);
        add(&mut store, alloc, b"long.so", &long)?;
        let case = Case {
            words,
            status: 5,
            err: b"fdpic: too long long.so\n",
            ..ORDINARY
        };
        check_over(&rt, alloc, &mut store, &case)?;
    }
    Ok(())
}

#[test]
fn no_more_than_64_modules(rt: HostRuntime) -> Result<(), Fail> {
    let alloc = rt.alloc();
    let mut store = MemStore::new(alloc);
    add_chain(&mut store, alloc)?;
    let case = Case {
        words: b"bind c00.so 0x20000 0x80000",
        status: 5,
        err: b"fdpic: load TooManyModules\n",
        ..ORDINARY
    };
    check_over(&rt, alloc, &mut store, &case)
}

#[test]
fn bind_refuses_what_is_no_job(rt: HostRuntime) -> Result<(), Fail> {
    let alloc = rt.alloc();
    is_refused(
        &rt,
        alloc,
        Files::Objects,
        b"bind second.job",
        5,
        b"fdpic: job First line 1\n",
    )?;
    is_refused(
        &rt,
        alloc,
        Files::Objects,
        b"bind range.job",
        5,
        b"fdpic: job Range line 2\n",
    )?;
    is_refused(
        &rt,
        alloc,
        Files::Objects,
        b"bind none.job",
        5,
        b"fdpic: job NoProgram line 2\n",
    )?;
    is_refused(
        &rt,
        alloc,
        Files::Objects,
        b"bind nofile",
        5,
        b"fdpic: no file nofile\n",
    )?;
    let case = Case {
        words: b"bind slot.job",
        store_fails_at: 1,
        status: 3,
        err: b"fdpic: store fault\n",
        ..ORDINARY
    };
    check(&rt, alloc, &case)?;
    Ok(())
}

#[test]
fn listings(rt: HostRuntime) -> Result<(), Fail> {
    let alloc = rt.alloc();
    prints(
        &rt,
        alloc,
        Files::Objects,
        b"show foo.so",
        b"object dyn entry 0x00000000 got 0x00010000
segment 0 0x00000000 0x00000008 0x00000008 5 16
segment 1 0x00010000 0x0000000c 0x0000000c 6 16
segment 2 0x00011000 0x00000084 0x00000084 4 16
soname foo.so
symbol 0 - local notype default undef 0x00000000 0
symbol 1 foo global func default here 0x00000000 0
",
    )?;
    prints(
        &rt,
        alloc,
        Files::Objects,
        b"code foo.so",
        b"0x00000000 e3a00007 mov r0, #7
0x00000004 e12fff1e bx lr
",
    )
}

#[test]
fn faults_and_faulty_words(rt: HostRuntime) -> Result<(), Fail> {
    let alloc = rt.alloc();
    let case = Case {
        status: 2,
        err: b"fdpic: words\n",
        ..ORDINARY
    };
    check(&rt, alloc, &case)?;
    is_refused(
        &rt,
        alloc,
        Files::Objects,
        b"bind e.so 0x20000",
        2,
        b"fdpic: words\n",
    )?;
    is_refused(
        &rt,
        alloc,
        Files::Objects,
        b"bind e.so 0x20000 far",
        2,
        b"fdpic: words\n",
    )?;
    is_refused(&rt, alloc, Files::Objects, b"show", 2, b"fdpic: words\n")?;
    is_refused(&rt, alloc, Files::Objects, b"as a.o", 2, b"fdpic: words\n")?;
    is_refused(
        &rt,
        alloc,
        Files::Objects,
        b"as a.o none",
        5,
        b"fdpic: no file none\n",
    )?;
    let case = Case {
        words: b"bind e.so 0x20000 0x80000",
        store_fails_at: 1,
        status: 3,
        err: b"fdpic: store fault\n",
        ..ORDINARY
    };
    check(&rt, alloc, &case)?;
    let case = Case {
        words: b"bind e.so 0x20000 0x80000",
        out_fails_at: 1,
        status: 4,
        err: b"fdpic: sink fault\n",
        ..ORDINARY
    };
    check(&rt, alloc, &case)?;
    let case = Case {
        words: b"bind none 0x20000 0x80000",
        err_fails_at: 1,
        status: 5,
        ..ORDINARY
    };
    check(&rt, alloc, &case)?;
    Ok(())
}
