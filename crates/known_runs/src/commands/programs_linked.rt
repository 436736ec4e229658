//! Programs and libraries from their texts to their runs.

use super::{Case, ORDINARY, check_over};
use crate::files::{add, file_of};
use fd_base::MemStore;
use std::alloc::Global;
use std::process::Abort;
use std::test::Fail;

/// The texts of a library and of programs, and jobs.
const FILES: [(&[u8], &[u8]); 8] = [
    (
        b"foo.s",
        b".text\n.global foo\n.type foo func\nfoo: mov r0, #7\n bx lr\n",
    ),
    (
        b"prog.s",
        b".text\n.global _start\n_start: bl foo\n svc #0\n",
    ),
    (
        b"weak.s",
        b".text\n.global _start\n.weak foo\n_start: bl foo\n svc #0\n",
    ),
    (
        b"q.s",
        b".data\n.word foo(FUNCDESC)\n.word foo(FUNCDESC)\n.text\n.global _start\n_start: svc #0\n",
    ),
    // the same, but it prints the two words
    (
        b"p.s",
        b".data
.word foo(FUNCDESC)
.word foo(FUNCDESC)
.text
.global _start
_start: add r0, r9, #12
 mov r1, #8
 svc #1
 svc #0
",
    ),
    (
        b"prog.job",
        b"fdpic-job 1\nprogram prog\nmode eager\nplace prog 0x20000 0x30000\nplace foo.so 0x40000 0x50000\n",
    ),
    (b"weak.job", b"fdpic-job 1\nprogram prog\nmode eager\n"),
    (b"p.job", b"fdpic-job 1\nprogram p\nmode eager\n"),
];

const AS_FOO: Case = Case {
    words: b"as foo.o foo.s",
    ..ORDINARY
};

const LINK_FOO: Case = Case {
    words: b"link foo.so shared foo.o",
    ..ORDINARY
};

/// A library: 8 bytes of code, and tables of 24 of hash, 32 of symbols, 12 of strings and 8 entries.
const LIBRARY: [Case; 4] = [
    AS_FOO,
    LINK_FOO,
    Case {
        words: b"code foo.so",
        out: b"0x00000000 e3a00007 mov r0, #7
0x00000004 e12fff1e bx lr
",
        ..ORDINARY
    },
    Case {
        words: b"show foo.so",
        out: b"object dyn entry 0x00000000 got 0x00010000
segment 0 0x00000000 0x00000008 0x00000008 5 16
segment 1 0x00010000 0x0000000c 0x0000000c 6 16
segment 2 0x00011000 0x00000084 0x00000084 4 16
soname foo.so
symbol 0 - local notype default undef 0x00000000 0
symbol 1 foo global func default here 0x00000000 0
",
        ..ORDINARY
    },
];

/// A program that calls its function. The tables are 32 bytes of hash, 48 of symbols, 20 of strings, 8 of the slot and
/// 11 entries. The slot is the first word behind the header of the GOT.
const CALLING: [Case; 8] = [
    AS_FOO,
    LINK_FOO,
    Case {
        words: b"as prog.o prog.s",
        ..ORDINARY
    },
    Case {
        words: b"link prog program lib=foo.so prog.o",
        ..ORDINARY
    },
    Case {
        words: b"show prog",
        out: b"object exec entry 0x00000000 got 0x00010000
segment 0 0x00000000 0x00000030 0x00000030 5 16
segment 1 0x00010000 0x00000014 0x00000014 6 16
segment 2 0x00011000 0x000000c4 0x000000c4 4 16
needed foo.so
symbol 0 - local notype default undef 0x00000000 0
symbol 1 _start global notype default here 0x00000000 0
symbol 2 foo global notype default undef 0x00000000 0
jmprel 0 0x0001000c 164 2
",
        ..ORDINARY
    },
    Case {
        words: b"code prog",
        out: b"0x00000000 eb000000 bl #0
0x00000004 ef000000 svc #0
0x00000008 e59fc008 ldr r12, [pc, #8]
0x0000000c e08cc009 add r12, r12, r9
0x00000010 e59c9004 ldr r9, [r12, #4]
0x00000014 e59cf000 ldr pc, [r12, #0]
0x00000018 0000000c andeq r0, r0, r12
0x0000001c 00000000 andeq r0, r0, r0
0x00000020 e51fc00c ldr r12, [pc, #-12]
0x00000024 e92d1000 stmdb sp!, {r12}
0x00000028 e599c004 ldr r12, [r9, #4]
0x0000002c e599f000 ldr pc, [r9, #0]
",
        ..ORDINARY
    },
    Case {
        words: b"bind prog.job",
        out: b"slot 0 0 0x0003000c 0x00040000 0x00050000\n",
        ..ORDINARY
    },
    Case {
        words: b"run prog.job",
        out: b"load 0 prog\nload 1 foo.so\nenter 1 0 0 0\narrive 5 0 1 0x00000000\nexit 8 0 7\n",
        ..ORDINARY
    },
];

/// A call of what is nowhere.
const OF_NOTHING: [Case; 3] = [
    Case {
        words: b"as weak.o weak.s",
        ..ORDINARY
    },
    Case {
        words: b"link prog program weak.o",
        ..ORDINARY
    },
    Case {
        words: b"run weak.job",
        status: 6,
        out: b"load 0 prog\nenter 1 0 0 0\nstop 5 0 fault 0x00000000\n",
        err: b"fdpic: stopped\n",
        ..ORDINARY
    },
];

/// The address of a descriptor, in two words. The tables are 32 bytes of hash, 48 of symbols, 20 of strings, 16 of relocations
/// and 11 entries. The loader gives the first of its descriptors, at 0x3000.
const ASKING: [Case; 8] = [
    AS_FOO,
    LINK_FOO,
    Case {
        words: b"as q.o q.s",
        ..ORDINARY
    },
    Case {
        words: b"link q program lib=foo.so q.o",
        ..ORDINARY
    },
    Case {
        words: b"show q",
        out: b"object exec entry 0x00000000 got 0x00010000
segment 0 0x00000000 0x00000004 0x00000004 5 16
segment 1 0x00010000 0x00000014 0x00000014 6 16
segment 2 0x00011000 0x000000cc 0x000000cc 4 16
needed foo.so
symbol 0 - local notype default undef 0x00000000 0
symbol 1 foo global notype default undef 0x00000000 0
symbol 2 _start global notype default here 0x00000000 0
rel 0 0x0001000c 163 1
rel 1 0x00010010 163 1
",
        ..ORDINARY
    },
    Case {
        words: b"as p.o p.s",
        ..ORDINARY
    },
    Case {
        words: b"link p program lib=foo.so p.o",
        ..ORDINARY
    },
    Case {
        words: b"run p.job",
        out: b"load 0 p\nload 1 foo.so\nout 3 0 0030000000300000\nexit 4 0 8\n",
        ..ORDINARY
    },
];

fn texts(alloc: Global) -> Result<MemStore, Fail> {
    let mut store = MemStore::new(alloc);
    add_texts(&mut store, alloc)?;
    Ok(store)
}

fn add_texts(store: &mut MemStore, alloc: Global) -> Result<(), Fail> {
    for (name, text) in FILES {
        add(store, alloc, name, text)?;
    }
    Ok(())
}

fn check_all(
    rt: &impl Abort,
    alloc: Global,
    store: &mut MemStore,
    cases: &[Case],
) -> Result<(), Fail> {
    for case in cases {
        check_over(rt, alloc, store, case)?;
    }
    Ok(())
}

#[test]
fn programs_are_linked_and_run(rt: HostRuntime) -> Result<(), Fail> {
    let alloc = rt.alloc();
    check_all(&rt, alloc, &mut texts(alloc)?, &LIBRARY)?;
    check_all(&rt, alloc, &mut texts(alloc)?, &CALLING)?;
    check_all(&rt, alloc, &mut texts(alloc)?, &OF_NOTHING)?;
    check_all(&rt, alloc, &mut texts(alloc)?, &ASKING)
}

/// A library, and an object without a soname that serves as another one.
const NEEDED: [Case; 4] = [
    AS_FOO,
    LINK_FOO,
    Case {
        words: b"as prog.o prog.s",
        ..ORDINARY
    },
    Case {
        words: b"link plain program lib=foo.so prog.o",
        ..ORDINARY
    },
];

/// A program over both, where the library's file has another name. The tables are 32 bytes of hash, 48 of symbols, 25 and
/// so 28 of strings, 8 of the slot and 12 entries.
const NEEDING: [Case; 2] = [
    Case {
        words: b"link prog program lib=other lib=plain prog.o",
        ..ORDINARY
    },
    Case {
        words: b"show prog",
        out: b"object exec entry 0x00000000 got 0x00010000
segment 0 0x00000000 0x00000030 0x00000030 5 16
segment 1 0x00010000 0x00000014 0x00000014 6 16
segment 2 0x00011000 0x000000d4 0x000000d4 4 16
needed foo.so
needed plain
symbol 0 - local notype default undef 0x00000000 0
symbol 1 _start global notype default here 0x00000000 0
symbol 2 foo global notype default undef 0x00000000 0
jmprel 0 0x0001000c 164 2
",
        ..ORDINARY
    },
];

/// A library is needed by its soname, and without one by the name of its file.
#[test]
fn libraries_are_needed_by_name(rt: HostRuntime) -> Result<(), Fail> {
    let alloc = rt.alloc();
    let mut store = texts(alloc)?;
    check_all(&rt, alloc, &mut store, &NEEDED)?;
    let library = file_of(&mut store, alloc, b"foo.so")?;
    add(&mut store, alloc, b"other", &library)?;
    check_all(&rt, alloc, &mut store, &NEEDING)
}
