//! Links of relocations that no text comes to: on symbols that lie at the end of their section or beyond, at other sites, and
//! of other kinds. In a symbol the first section of its file has number 3.

use super::rel_files::Mark::{At, Start};
use super::rel_files::Part::{Code, Data, Other, Zeros};
use super::rel_files::{ENDING, Part, TELLING, WORDED};
use super::rows::Input::{Made, Text};
use super::rows::{ROW, Row, check_rows};
use std::test::Fail;

const TWO: &str = "link s static a.o b.o";

/// Symbols whose value lies at the end of a section, or beyond. What counts is the segment's end for a distance (kind 3) and
/// an offset (kind 24), and the section's end for a function.
const BEYOND: [Row; 11] = [
    // 8 - 4, at the end of the text
    Row {
        a: Made(&[Code(WORDED, &[[4, 0x103]])], &[At(8, 0x3_0000), Start(0)]),
        then: "code s",
        out: "0x00000000 ef000000 svc #0\n0x00000004 00000004 andeq r0, r0, r4\n",
        ..ROW
    },
    Row {
        a: Made(&[Code(WORDED, &[[4, 0x103]])], &[At(9, 0x3_0000), Start(0)]),
        err: "fdpic: link CrossSegment 0 0 4\n",
        ..ROW
    },
    // 9 - 4, where the text has a further word
    Row {
        a: Made(&[Code(WORDED, &[[4, 0x103]])], &[At(9, 0x3_0000), Start(0)]),
        b: Text(" svc #0"),
        words: TWO,
        then: "code s",
        out: "0x00000000 ef000000 svc #0
0x00000004 00000005 andeq r0, r0, r5
0x00000008 ef000000 svc #0
",
        ..ROW
    },
    // from the text to the data
    Row {
        a: Made(
            &[Code(WORDED, &[[4, 0x103]]), Data(&[0, 0], &[])],
            &[At(0, 0x4_0000), Start(0)],
        ),
        err: "fdpic: link CrossSegment 0 0 4\n",
        ..ROW
    },
    // the end of the data: 12 bytes of the GOT and 8 of its own
    Row {
        a: Made(
            &[Code(WORDED, &[[4, 0x118]]), Data(&[0, 0], &[])],
            &[At(8, 0x4_0000), Start(0)],
        ),
        then: "code s",
        out: "0x00000000 ef000000 svc #0\n0x00000004 00000014 andeq r0, r0, r4, lsl r0\n",
        ..ROW
    },
    Row {
        a: Made(
            &[Code(WORDED, &[[4, 0x118]]), Data(&[0, 0], &[])],
            &[At(9, 0x4_0000), Start(0)],
        ),
        err: "fdpic: link CrossSegment 0 0 4\n",
        ..ROW
    },
    // a function at the end of its section, and one that would be in the next
    Row {
        a: Made(
            &[ENDING, Data(&[0, 0], &[[0, 0x1a3]])],
            &[At(4, 0x3_0000), Start(0)],
        ),
        b: Text(" svc #0"),
        words: TWO,
        ..ROW
    },
    Row {
        a: Made(
            &[ENDING, Data(&[0, 0], &[[0, 0x1a3]])],
            &[At(8, 0x3_0000), Start(0)],
        ),
        b: Text(" svc #0"),
        words: TWO,
        err: "fdpic: link RelocType 0 1 0\n",
        ..ROW
    },
    // an entry of the same kinds
    Row {
        a: Made(&[ENDING], &[Start(4)]),
        b: Text(" svc #0"),
        words: TWO,
        ..ROW
    },
    Row {
        a: Made(&[ENDING], &[Start(8)]),
        b: Text(" svc #0"),
        words: TWO,
        err: "fdpic: link NoEntry\n",
        ..ROW
    },
    // code that is written to
    Row {
        a: Made(&[Other([1, 7, 4], &[0xef00_0000])], &[Start(0)]),
        err: "fdpic: link NoEntry\n",
        ..ROW
    },
];

/// Kinds and sites of relocations of the data, on its own symbol 1.
const SITES: [Row; 10] = [
    // kinds that no linker takes: a slot (22) and a short distance (42)
    Row {
        a: Made(
            &[ENDING, Data(&[0, 0], &[[0, 0x116]])],
            &[At(0, 0x4_0000), Start(0)],
        ),
        err: "fdpic: link RelocType 0 1 0\n",
        ..ROW
    },
    Row {
        a: Made(
            &[ENDING, Data(&[0, 0], &[[4, 0x12a]])],
            &[At(0, 0x4_0000), Start(0)],
        ),
        err: "fdpic: link RelocType 0 1 4\n",
        ..ROW
    },
    // an address by its other kind (38)
    Row {
        a: Made(
            &[TELLING, Data(&[0, 0], &[[0, 0x126]])],
            &[At(4, 0x4_0000), Start(0)],
        ),
        then: "run s.job",
        out: "load 0 s\nexit 2 0 196624\n",
        ..ROW
    },
    // an address at no multiple of 4, and a distance there
    Row {
        a: Made(
            &[ENDING, Data(&[0, 0], &[[2, 0x102]])],
            &[At(0, 0x4_0000), Start(0)],
        ),
        err: "fdpic: link RelocType 0 1 2\n",
        ..ROW
    },
    Row {
        a: Made(
            &[ENDING, Data(&[0, 0], &[[2, 0x103]])],
            &[At(0, 0x4_0000), Start(0)],
        ),
        ..ROW
    },
    // sites that meet: the later relocation is refused, also where its site comes first
    Row {
        a: Made(
            &[ENDING, Data(&[0, 0], &[[0, 0x103], [3, 0x103]])],
            &[At(0, 0x4_0000), Start(0)],
        ),
        err: "fdpic: link RelocType 0 1 3\n",
        ..ROW
    },
    Row {
        a: Made(
            &[ENDING, Data(&[0, 0], &[[4, 0x103], [1, 0x103]])],
            &[At(0, 0x4_0000), Start(0)],
        ),
        err: "fdpic: link RelocType 0 1 1\n",
        ..ROW
    },
    Row {
        a: Made(
            &[ENDING, Data(&[0, 0], &[[4, 0x103], [0, 0x103]])],
            &[At(0, 0x4_0000), Start(0)],
        ),
        ..ROW
    },
    // what changes nothing meets nothing
    Row {
        a: Made(
            &[ENDING, Data(&[0, 0], &[[0, 0x100], [0, 0x103], [0, 0x128]])],
            &[At(0, 0x4_0000), Start(0)],
        ),
        ..ROW
    },
    // a local common block isn't joined to any
    Row {
        a: Made(
            &[ENDING, Data(&[0, 0], &[[0, 0x102]])],
            &[At(4, 0xfff2_0001), Start(0)],
        ),
        err: "fdpic: link RelocType 0 1 0\n",
        ..ROW
    },
];

/// A call at 0, and nine sections of 4 MB without bytes. The last one begins at 33,554,436, and an instruction reads its own
/// address as 8 more: 33,554,428 is how far a call reaches.
const FAR: &[Part] = &[
    Code(&[0xebff_fffe], &[[0, 0x11c]]),
    Zeros(4_194_304),
    Zeros(4_194_304),
    Zeros(4_194_304),
    Zeros(4_194_304),
    Zeros(4_194_304),
    Zeros(4_194_304),
    Zeros(4_194_304),
    Zeros(4_194_304),
    Zeros(4_194_304),
];

/// Branches, of each kind.
const BRANCHES: [Row; 7] = [
    Row {
        a: Made(
            &[Code(&[0xebff_fffe, 0xef00_0000], &[[0, 0x101]])],
            &[At(4, 0x3_0000), Start(0)],
        ),
        then: "code s",
        out: "0x00000000 ebffffff bl #-4\n0x00000004 ef000000 svc #0\n",
        ..ROW
    },
    Row {
        a: Made(
            &[Code(&[0xebff_fffe, 0xef00_0000], &[[0, 0x11b]])],
            &[At(4, 0x3_0000), Start(0)],
        ),
        then: "code s",
        out: "0x00000000 ebffffff bl #-4\n0x00000004 ef000000 svc #0\n",
        ..ROW
    },
    Row {
        a: Made(
            &[Code(&[0x0aff_fffe, 0xef00_0000], &[[0, 0x11d]])],
            &[At(4, 0x3_0000), Start(0)],
        ),
        then: "code s",
        out: "0x00000000 0affffff beq #-4\n0x00000004 ef000000 svc #0\n",
        ..ROW
    },
    // to no multiple of 4, and from the data
    Row {
        a: Made(
            &[Code(&[0xebff_fffe, 0xef00_0000], &[[0, 0x11c]])],
            &[At(2, 0x3_0000), Start(0)],
        ),
        err: "fdpic: link CrossSegment 0 0 0\n",
        ..ROW
    },
    Row {
        a: Made(
            &[ENDING, Data(&[0xebff_fffe], &[[0, 0x11c]])],
            &[At(0, 0x3_0000), Start(0)],
        ),
        err: "fdpic: link CrossSegment 0 1 0\n",
        ..ROW
    },
    // as far as it reaches, and farther
    Row {
        a: Made(FAR, &[At(0, 0xc_0000), Start(0)]),
        then: "code s",
        out: "0x00000000 eb7fffff bl #33554428\n",
        ..ROW
    },
    Row {
        a: Made(FAR, &[At(4, 0xc_0000), Start(0)]),
        err: "fdpic: link CrossSegment 0 0 0\n",
        ..ROW
    },
];

#[test]
fn made_relocations_are_linked(rt: HostRuntime) -> Result<(), Fail> {
    check_rows(&rt, rt.alloc(), &BEYOND)?;
    check_rows(&rt, rt.alloc(), &SITES)?;
    check_rows(&rt, rt.alloc(), &BRANCHES)
}
