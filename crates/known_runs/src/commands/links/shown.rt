//! What linked objects are: their listings, their code, and what they find in memory. The text begins at 0, the data at
//! the next multiple of 0x10000 above its end, and the tables at the next multiple of 0x1000 above the data. The data begins
//! with the GOT, whose header has 12 bytes. In a run the text lies at 0x20000 and the data at 0x30000.

use super::rows::Input::{Changed, Text};
use super::rows::{ROW, Row, check_rows};
use std::test::Fail;

const PROGRAM: &str = "link s program a.o";

/// Layouts. The tables of a program that stands alone are 76 bytes and 4 for each fixup: a hash table of 12 bytes, strings of 4,
/// the list of fixups, which ends with the GOT, and 7 dynamic entries.
const LAYOUTS: [Row; 5] = [
    // without a PLT nothing is padded, and without fixups the list is still there
    Row {
        a: Text(".global _start\n_start: svc #0\n.byte 1"),
        then: "show s",
        out: "object exec entry 0x00000000 got 0x00010000
segment 0 0x00000000 0x00000005 0x00000005 5 16
segment 1 0x00010000 0x0000000c 0x0000000c 6 16
segment 2 0x00011000 0x0000004c 0x0000004c 4 16
",
        ..ROW
    },
    // the tables begin above what ends at a multiple of 0x1000, and not at its end
    Row {
        a: Text(".global _start\n_start: svc #0\n.data\n.space 4084"),
        then: "show s",
        out: "object exec entry 0x00000000 got 0x00010000
segment 0 0x00000000 0x00000004 0x00000004 5 16
segment 1 0x00010000 0x00001000 0x00001000 6 16
segment 2 0x00012000 0x0000004c 0x0000004c 4 16
",
        ..ROW
    },
    // and so does the data above the text
    Row {
        a: Text(".global _start\n_start: svc #0\n.space 65532"),
        then: "show s",
        out: "object exec entry 0x00000000 got 0x00020000
segment 0 0x00000000 0x00010000 0x00010000 5 16
segment 1 0x00020000 0x0000000c 0x0000000c 6 16
segment 2 0x00021000 0x0000004c 0x0000004c 4 16
",
        ..ROW
    },
    // the file's bytes reach to a section of no bytes, at a multiple of its 16, and zeros lie behind
    Row {
        a: Text(".global _start\n_start: svc #0\n.data\n.align 16\nd:\n.bss\n.space 8"),
        then: "show s",
        out: "object exec entry 0x00000000 got 0x00010000
segment 0 0x00000000 0x00000004 0x00000004 5 16
segment 1 0x00010000 0x00000010 0x00000018 6 16
segment 2 0x00011000 0x0000004c 0x0000004c 4 16
",
        ..ROW
    },
    // without a text the data still begins at 0x10000. Tables: 16 of hash, 16 of symbols, 4 of strings and 8 entries
    Row {
        a: Text(".data\n.word 1"),
        words: "link s shared a.o",
        then: "show s",
        out: "object dyn entry 0x00000000 got 0x00010000
segment 0 0x00010000 0x00000010 0x00000010 6 16
segment 1 0x00011000 0x00000064 0x00000064 4 16
soname s
symbol 0 - local notype default undef 0x00000000 0
",
        ..ROW
    },
];

/// Words of the text.
const CODE: [Row; 5] = [
    // each symbol has its own word of the GOT, also where another one has the same address
    Row {
        a: Text(
            ".global _start\n_start: svc #0\n.word a(GOT)\n.word b(GOT)\n.word a(GOT)\n.data\na:\nb: .word 7",
        ),
        then: "code s",
        out: "0x00000000 ef000000 svc #0
0x00000004 0000000c andeq r0, r0, r12
0x00000008 00000010 andeq r0, r0, r0, lsl r0
0x0000000c 0000000c andeq r0, r0, r12
",
        ..ROW
    },
    // and a function has one descriptor, whichever symbols name it
    Row {
        a: Text(
            ".global _start\n_start: svc #0\nf:\ng: bx lr\n.word f(GOTOFFFUNCDESC)\n.word g(GOTOFFFUNCDESC)",
        ),
        then: "code s",
        out: "0x00000000 ef000000 svc #0
0x00000004 e12fff1e bx lr
0x00000008 0000000c andeq r0, r0, r12
0x0000000c 0000000c andeq r0, r0, r12
",
        ..ROW
    },
    // the offset of the end of the data, 12 bytes of the GOT and 4 of its own
    Row {
        a: Text(".global _start\n_start: svc #0\n.word e(GOTOFF)\n.data\n.word 0\ne:"),
        then: "code s",
        out: "0x00000000 ef000000 svc #0
0x00000004 00000010 andeq r0, r0, r0, lsl r0
",
        ..ROW
    },
    // a call of nothing goes on
    Row {
        a: Text(".global _start\n.weak foo\n_start: bl foo\n svc #0"),
        then: "code s",
        out: "0x00000000 ebffffff bl #-4
0x00000004 ef000000 svc #0
",
        ..ROW
    },
    // a branch is judged by where it leads: d is at 0x1000c, and d - 0x10010 + 8 is 4
    Row {
        a: Changed(
            ".global _start\n_start: bl d\n svc #0\n.data\nd: .word 0",
            &[(52, 0xfc), (53, 0xbf)],
        ),
        then: "code s",
        out: "0x00000000 ebffffff bl #-4
0x00000004 ef000000 svc #0
",
        ..ROW
    },
];

/// Programs that end with a word of their data, or print some.
const RUNS: [Row; 12] = [
    Row {
        a: Text(".text\n.global _start\n_start: mov r4, #0\n ldr r0, w\n svc #0\nw: .word 5"),
        then: "run s.job",
        out: "load 0 s\nexit 3 0 5\n",
        ..ROW
    },
    Row {
        a: Text(
            ".global _start\n_start: ldr r0, [r9, #16]\n svc #0\nl: svc #0\n.data\n.align 16\nw: .word l\n.word w",
        ),
        then: "run s.job",
        out: "load 0 s\nexit 2 0 131080\n",
        ..ROW
    },
    Row {
        a: Text(
            ".global _start\n_start: ldr r0, [r9, #20]\n svc #0\nl: svc #0\n.data\n.align 16\nw: .word l\n.word w",
        ),
        then: "run s.job",
        out: "load 0 s\nexit 2 0 196624\n",
        ..ROW
    },
    // the address of the end of the text, 0x20008
    Row {
        a: Text(".global _start\n_start: ldr r0, [r9, #12]\n svc #0\ne:\n.data\n.word e"),
        then: "run s.job",
        out: "load 0 s\nexit 2 0 131080\n",
        ..ROW
    },
    // a descriptor: 0x20010 and the GOT, at 0x30000
    Row {
        a: Text(
            ".global _start\n_start: add r0, r9, #12\n mov r1, #8\n svc #1\n svc #0\nf: bx lr\n.word f(GOTOFFFUNCDESC)",
        ),
        then: "run s.job",
        out: "load 0 s\nout 3 0 1000020000000300\nexit 4 0 8\n",
        ..ROW
    },
    Row {
        a: Text(
            ".global _start\n_start: add r0, r9, #12\n mov r1, #8\n svc #1\n svc #0\nf: bx lr\n.word f(GOTOFFFUNCDESC)",
        ),
        words: PROGRAM,
        then: "run s.job",
        out: "load 0 s\nout 3 0 1000020000000300\nexit 4 0 8\n",
        ..ROW
    },
    // two words of the GOT, a descriptor at 0x30014, and behind it d at 0x3001c
    Row {
        a: Text(
            ".global _start\n_start: add r0, r9, #12\n mov r1, #8\n svc #1\n svc #0\n.word d(GOT)\n.word f(GOTFUNCDESC)\nf: bx lr\n.data\nd: .word 0",
        ),
        then: "run s.job",
        out: "load 0 s\nout 3 0 1c00030014000300\nexit 4 0 8\n",
        ..ROW
    },
    Row {
        a: Text(
            ".global _start\n_start: add r0, r9, #12\n mov r1, #8\n svc #1\n svc #0\n.word d(GOT)\n.word f(GOTFUNCDESC)\nf: bx lr\n.data\nd: .word 0",
        ),
        words: PROGRAM,
        then: "run s.job",
        out: "load 0 s\nout 3 0 1c00030014000300\nexit 4 0 8\n",
        ..ROW
    },
    // the address of the descriptor, 0x3000c
    Row {
        a: Text(
            ".global _start\n_start: ldr r0, [r9, #20]\n svc #0\nf: bx lr\n.data\n.word f(FUNCDESC)",
        ),
        words: PROGRAM,
        then: "run s.job",
        out: "load 0 s\nexit 2 0 196620\n",
        ..ROW
    },
    // of two weak definitions the first is taken, and before it a global one
    Row {
        a: Text(
            ".global _start\n_start: ldr r0, [r9, #12]\n ldr r0, [r0]\n svc #0\n.word d(GOT)\n.data\n.weak d\nd: .word 1",
        ),
        b: Text(".data\n.weak d\nd: .word 2"),
        words: "link s static a.o b.o",
        then: "run s.job",
        out: "load 0 s\nexit 3 0 1\n",
        ..ROW
    },
    Row {
        a: Text(
            ".global _start\n_start: ldr r0, [r9, #12]\n ldr r0, [r0]\n svc #0\n.word d(GOT)\n.data\n.weak d\nd: .word 1",
        ),
        b: Text(".data\n.global d\nd: .word 2"),
        words: "link s static a.o b.o",
        then: "run s.job",
        out: "load 0 s\nexit 3 0 2\n",
        ..ROW
    },
    // nothing has a word of the GOT, which is 0
    Row {
        a: Text(".global _start\n_start: ldr r0, [r9, #12]\n svc #0\n.weak w\n.word w(GOT)"),
        then: "run s.job",
        out: "load 0 s\nexit 2 0 0\n",
        ..ROW
    },
];

#[test]
fn linked_objects_are_shown(rt: HostRuntime) -> Result<(), Fail> {
    check_rows(&rt, rt.alloc(), &LAYOUTS)?;
    check_rows(&rt, rt.alloc(), &CODE)
}

#[test]
fn linked_programs_run(rt: HostRuntime) -> Result<(), Fail> {
    check_rows(&rt, rt.alloc(), &RUNS)
}
