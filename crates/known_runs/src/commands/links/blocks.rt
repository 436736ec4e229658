//! Links of common blocks and of arrays of functions.

use super::rel_files::Mark::{Block, Start};
use super::rel_files::Part::{Code, Data, Other};
use super::rel_files::{ENDING, TELLING, WORDED};
use super::rows::Input::{Made, Text};
use super::rows::{ROW, Row, check_rows, ends_with};
use std::test::Fail;

const TWO: &str = "link s static a.o b.o";

const PROGRAM: &str = "link s program a.o";

/// Common blocks.
const BLOCKS: [Row; 7] = [
    // the largest size, and the largest alignment, raised to a power of two: behind the GOT, at a multiple of 32
    Row {
        a: Made(&[ENDING], &[Start(0), Block(4, 8)]),
        b: Made(&[ENDING], &[Block(17, 4)]),
        words: "link s program a.o b.o",
        then: "show s",
        out: "object exec entry 0x00000000 got 0x00010000
segment 0 0x00000000 0x00000008 0x00000008 5 16
segment 1 0x00010000 0x0000000c 0x00000028 6 32
segment 2 0x00011000 0x00000094 0x00000094 4 16
symbol 0 - local notype default undef 0x00000000 0
symbol 1 _start global notype default here 0x00000000 0
symbol 2 x global object default here 0x00010020 8
",
        ..ROW
    },
    // a global definition (at 0x30014, behind the word of the GOT and the 9) goes before a block, and a block (at 0x30018) before
    // a weak one
    Row {
        a: Made(
            &[TELLING, Code(WORDED, &[[4, 0x11a]])],
            &[Block(4, 4), Start(0)],
        ),
        b: Text(".data\n.word 9\n.global x\nx: .word 5"),
        words: TWO,
        then: "run s.job",
        out: "load 0 s\nexit 2 0 196628\n",
        ..ROW
    },
    Row {
        a: Made(
            &[TELLING, Code(WORDED, &[[4, 0x11a]])],
            &[Block(4, 4), Start(0)],
        ),
        b: Text(".data\n.word 9\n.weak x\nx: .word 5"),
        words: TWO,
        then: "run s.job",
        out: "load 0 s\nexit 2 0 196632\n",
        ..ROW
    },
    // it lies in the data, behind the GOT, and is no function
    Row {
        a: Made(&[Code(WORDED, &[[4, 0x118]])], &[Block(4, 4), Start(0)]),
        then: "code s",
        out: "0x00000000 ef000000 svc #0\n0x00000004 0000000c andeq r0, r0, r12\n",
        ..ROW
    },
    Row {
        a: Made(&[Code(WORDED, &[[4, 0x1a1]])], &[Block(4, 4), Start(0)]),
        err: "fdpic: link RelocType 0 0 4\n",
        ..ROW
    },
    // the tables begin at 0xfffff000 above data that ends at 0xffffefff, and would begin at 2^32 above 0xfffff000
    Row {
        a: Made(&[ENDING], &[Start(0), Block(1, 0xfffe_eff3)]),
        ..ROW
    },
    Row {
        a: Made(&[ENDING], &[Start(0), Block(1, 0xfffe_eff4)]),
        err: "fdpic: link TooLarge\n",
        ..ROW
    },
];

/// The kind, the flags and the alignment of arrays of functions, called at the start and at the end.
const STARTS: [u32; 3] = [14, 3, 4];

const ENDS: [u32; 3] = [15, 3, 4];

/// A program that prints 40 bytes of its data, from behind the header of the GOT. Arrays of start functions come first, then
/// those of end functions, then all else; the second array begins at a multiple of 16, 0x10020.
const ARRAYS: Row = Row {
    a: Made(
        &[
            Code(&[0xe289_000c, 0xe3a0_1028, 0xef00_0001, 0xef00_0000], &[]),
            Other(ENDS, &[1]),
            Data(&[0xaa], &[]),
            Other(STARTS, &[2, 2]),
        ],
        &[Start(0)],
    ),
    b: Made(
        &[
            Data(&[0xbb], &[]),
            Other([14, 3, 16], &[3]),
            Other(ENDS, &[4]),
        ],
        &[],
    ),
    words: "link s program a.o b.o",
    then: "run s.job",
    out: "load 0 s
skipped init 0
out 3 0 0200000002000000000000000000000000000000030000000100000004000000aa000000bb000000
exit 4 0 40
",
    ..ROW
};

/// An array in the text, at 4, and one in the data, at 0x1000c.
const APART: Row = Row {
    a: Made(
        &[ENDING, Other(STARTS, &[0]), Other([14, 2, 4], &[0])],
        &[Start(0)],
    ),
    words: PROGRAM,
    ..ROW
};

#[test]
fn blocks_are_joined(rt: HostRuntime) -> Result<(), Fail> {
    check_rows(&rt, rt.alloc(), &BLOCKS)
}

/// The loader is told where the first array of a kind begins and how far it is to the end of the last one.
#[test]
fn arrays_are_in_order(rt: HostRuntime) -> Result<(), Fail> {
    let alloc = rt.alloc();
    check_rows(&rt, alloc, &[ARRAYS])?;
    let tail = [25, 0x1_000c, 27, 0x18, 26, 0x1_0024, 28, 8, 0, 0];
    ends_with(&rt, alloc, &ARRAYS, &tail)?;
    let tail = [3, 0x1_0000, 25, 4, 27, 0x1_000c, 0, 0];
    ends_with(&rt, alloc, &APART, &tail)
}
