//! Links of symbols that no text comes to: those of sections and of files, those of sections that aren't kept, and numbers.
//! In a symbol the first section of its file has number 3.

use super::rel_files::Mark::{At, Start};
use super::rel_files::Part::{Code, Data, Other};
use super::rel_files::{ENDING, Part, TELLING, WORDED};
use super::rows::Input::{Made, Text};
use super::rows::{ROW, Row, check_rows};
use std::test::Fail;

const TWO: &str = "link s static a.o b.o";

const SHARED: &str = "link s shared a.o";

const PROGRAM: &str = "link s program a.o";

/// A section that is no part of the program.
const DROPPED: Part = Other([1, 0, 4], &[0]);

/// Symbols of sections are no names, and those of files aren't seen by others; what lies in a section that isn't kept is
/// defined nowhere.
const UNSEEN: [Row; 16] = [
    Row {
        a: Made(&[ENDING], &[At(0, 0x3_0012), Start(0)]),
        b: Made(&[ENDING], &[At(0, 0x3_0012)]),
        words: TWO,
        err: "fdpic: link Twice x\n",
        ..ROW
    },
    Row {
        a: Made(&[ENDING], &[At(0, 0x3_0013), Start(0)]),
        b: Made(&[ENDING], &[At(0, 0x3_0013)]),
        words: TWO,
        ..ROW
    },
    Row {
        a: Made(&[ENDING], &[At(0, 0x3_0013), Start(0)]),
        b: Made(&[ENDING], &[At(0, 0x3_0012)]),
        words: TWO,
        ..ROW
    },
    // it isn't looked for either, but nothing can be made of it
    Row {
        a: Made(&[ENDING, Data(&[0, 0], &[])], &[At(0, 0x13), Start(0)]),
        ..ROW
    },
    Row {
        a: Made(
            &[ENDING, Data(&[0, 0], &[[0, 0x102]])],
            &[At(0, 0x13), Start(0)],
        ),
        err: "fdpic: link RelocType 0 1 0\n",
        ..ROW
    },
    // a section that isn't kept
    Row {
        a: Made(&[ENDING, DROPPED], &[At(0, 0x4_0012), Start(0)]),
        err: "fdpic: link Undefined x\n",
        ..ROW
    },
    Row {
        a: Made(&[ENDING, DROPPED], &[At(0, 0x4_0012), Start(0)]),
        b: Text(".global x\nx: bx lr"),
        words: TWO,
        ..ROW
    },
    Row {
        a: Made(&[ENDING, DROPPED], &[At(0, 0x4_0022), Start(0)]),
        ..ROW
    },
    // its symbol can't be used, not even by what changes nothing (kind 40)
    Row {
        a: Made(
            &[ENDING, DROPPED, Data(&[0, 0], &[[0, 0x102]])],
            &[At(0, 0x4_0012), Start(0)],
        ),
        b: Text(".global x\nx: bx lr"),
        words: TWO,
        err: "fdpic: link RelocType 0 1 0\n",
        ..ROW
    },
    Row {
        a: Made(
            &[ENDING, DROPPED, Data(&[0, 0], &[[4, 0x128]])],
            &[At(0, 0x4_0012), Start(0)],
        ),
        b: Text(".global x\nx: bx lr"),
        words: TWO,
        err: "fdpic: link RelocType 0 1 4\n",
        ..ROW
    },
    // the null symbol, with and without a use
    Row {
        a: Made(&[ENDING, Data(&[0, 0], &[[0, 0x28], [4, 0]])], &[Start(0)]),
        ..ROW
    },
    Row {
        a: Made(&[ENDING, Data(&[0, 0], &[[4, 2]])], &[Start(0)]),
        err: "fdpic: link RelocType 0 1 4\n",
        ..ROW
    },
    // a file's symbol can be left to no other module, unless it is hidden
    Row {
        a: Made(&[Data(&[0, 0], &[[0, 0x102]])], &[At(0, 0x3_0014)]),
        words: SHARED,
        err: "fdpic: link RelocType 0 0 0\n",
        ..ROW
    },
    Row {
        a: Made(&[Data(&[0, 0], &[])], &[At(0, 0x3_0014)]),
        words: SHARED,
        ..ROW
    },
    Row {
        a: Made(&[Data(&[0, 0], &[[0, 0x102]])], &[At(0, 0x3_0214)]),
        words: SHARED,
        ..ROW
    },
    // a program settles it. Tables: 24 of hash, 32 of symbols, 8 of strings, 8 of relocations and 10 entries
    Row {
        a: Made(
            &[ENDING, Data(&[0, 0], &[[0, 0x102]])],
            &[At(0, 0x4_0014), Start(0)],
        ),
        words: PROGRAM,
        then: "show s",
        out: "object exec entry 0x00000000 got 0x00010000
segment 0 0x00000000 0x00000004 0x00000004 5 16
segment 1 0x00010000 0x00000014 0x00000014 6 16
segment 2 0x00011000 0x00000098 0x00000098 4 16
symbol 0 - local notype default undef 0x00000000 0
symbol 1 _start global notype default here 0x00000000 0
rel 0 0x0001000c 23 0
",
        ..ROW
    },
];

/// Numbers, which lie in no segment.
const NUMBERS: [Row; 9] = [
    Row {
        a: Made(
            &[Code(&[0xebff_fffe], &[[0, 0x11c]])],
            &[At(0, 0xfff1_0010), Start(0)],
        ),
        err: "fdpic: link CrossSegment 0 0 0\n",
        ..ROW
    },
    // left to the loader it is still no place to branch to; before that its addend is looked at, and first of all the branch
    Row {
        a: Made(
            &[Code(&[0xebff_fffe], &[[0, 0x11c]])],
            &[At(0, 0xfff1_0010)],
        ),
        words: SHARED,
        err: "fdpic: link CrossSegment 0 0 0\n",
        ..ROW
    },
    Row {
        a: Made(
            &[Code(&[0xebff_ffff], &[[0, 0x11c]])],
            &[At(0, 0xfff1_0010)],
        ),
        words: SHARED,
        err: "fdpic: link RelocType 0 0 0\n",
        ..ROW
    },
    Row {
        a: Made(
            &[Code(&[0xfbff_ffff], &[[0, 0x11c]])],
            &[At(0, 0xfff1_0010)],
        ),
        words: SHARED,
        err: "fdpic: link ThumbBranch 0 0 0\n",
        ..ROW
    },
    // a distance and an offset
    Row {
        a: Made(
            &[Code(WORDED, &[[4, 0x103]])],
            &[At(0, 0xfff1_0010), Start(0)],
        ),
        err: "fdpic: link CrossSegment 0 0 4\n",
        ..ROW
    },
    Row {
        a: Made(
            &[Code(WORDED, &[[4, 0x118]])],
            &[At(0, 0xfff1_0010), Start(0)],
        ),
        err: "fdpic: link CrossSegment 0 0 4\n",
        ..ROW
    },
    // a word and a word of the GOT, which loading doesn't move
    Row {
        a: Made(
            &[TELLING, Data(&[0, 0], &[[0, 0x102]])],
            &[At(7, 0xfff1_0010), Start(0)],
        ),
        then: "run s.job",
        out: "load 0 s\nexit 2 0 7\n",
        ..ROW
    },
    Row {
        a: Made(
            &[TELLING, Code(WORDED, &[[4, 0x11a]])],
            &[At(7, 0xfff1_0010), Start(0)],
        ),
        then: "run s.job",
        out: "load 0 s\nexit 2 0 7\n",
        ..ROW
    },
    // a descriptor of one
    Row {
        a: Made(
            &[ENDING, Data(&[0, 0], &[[0, 0x1a3]])],
            &[At(0, 0xfff1_0012), Start(0)],
        ),
        err: "fdpic: link RelocType 0 1 0\n",
        ..ROW
    },
];

#[test]
fn special_symbols_are_linked(rt: HostRuntime) -> Result<(), Fail> {
    check_rows(&rt, rt.alloc(), &UNSEEN)?;
    check_rows(&rt, rt.alloc(), &NUMBERS)
}
