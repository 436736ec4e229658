//! Relocations that are refused, and beside each one that just isn't.

use super::rows::Input::{Changed, Text};
use super::rows::{ROW, Row, check_rows};
use std::test::Fail;

const TWO: &str = "link s static a.o b.o";

const SHARED: &str = "link s shared a.o";

const PROGRAM: &str = "link s program a.o";

/// A program that ends at once.
const ENDING: &str = ".global _start\n_start: svc #0";

/// Relocations. The code of a file begins at its byte 52, and so the fourth byte of its first instruction is byte 55.
const RELOCATIONS: [Row; 25] = [
    // a bl, a blx of the same bits, and a b
    Row {
        a: Text(".global _start\n_start: bl f\n.global f\nf: bx lr"),
        ..ROW
    },
    Row {
        a: Changed(
            ".global _start\n_start: bl f\n.global f\nf: bx lr",
            &[(55, 0xfb)],
        ),
        err: "fdpic: link ThumbBranch 0 0 0\n",
        ..ROW
    },
    Row {
        a: Changed(
            ".global _start\n_start: b f\n.global f\nf: bx lr",
            &[(55, 0xfa)],
        ),
        words: SHARED,
        err: "fdpic: link ThumbBranch 0 0 0\n",
        ..ROW
    },
    // a call through the PLT has the addend -8, whose field is fffffe, and a blx is refused whatever its addend
    Row {
        a: Changed(".global _start\n_start: bl foo", &[(52, 0xff)]),
        words: PROGRAM,
        err: "fdpic: link RelocType 0 0 0\n",
        ..ROW
    },
    Row {
        a: Changed(".global _start\n_start: bl foo", &[(52, 0xff), (55, 0xfb)]),
        words: PROGRAM,
        err: "fdpic: link ThumbBranch 0 0 0\n",
        ..ROW
    },
    Row {
        a: Changed(
            ".global _start\n_start: bl f\n bx lr\n.global f\nf: bx lr",
            &[(52, 0xfd)],
        ),
        ..ROW
    },
    // offsets of code from the GOT, in each mode
    Row {
        a: Text(".global _start\n_start: svc #0\nl: svc #0\n.word l(GOTOFF)"),
        err: "fdpic: link CrossSegment 0 0 8\n",
        ..ROW
    },
    Row {
        a: Text(".global _start\n_start: svc #0\nl: svc #0\n.word l(GOTOFF)"),
        words: PROGRAM,
        err: "fdpic: link CrossSegment 0 0 8\n",
        ..ROW
    },
    Row {
        a: Text(".global _start\n_start: svc #0\nl: svc #0\n.word l(GOTOFF)"),
        words: SHARED,
        err: "fdpic: link CrossSegment 0 0 8\n",
        ..ROW
    },
    Row {
        a: Text(".global _start\n_start: svc #0\n svc #0\n.word d(GOTOFF)\n.data\nd: .word 0"),
        ..ROW
    },
    // another module can take the place of what a shared object defines, but not of what is hidden
    Row {
        a: Text(".word d(GOTOFF)\n.data\n.global d\nd: .word 0"),
        words: SHARED,
        err: "fdpic: link RelocType 0 0 0\n",
        ..ROW
    },
    Row {
        a: Text(".word d(GOTOFF)\n.data\n.global d\n.hidden d\nd: .word 0"),
        words: SHARED,
        ..ROW
    },
    // a branch to data
    Row {
        a: Text(ENDING),
        b: Text(".data\n.word 0\n.text\n bl d\n.data\nd: .word 0"),
        words: TWO,
        err: "fdpic: link CrossSegment 1 0 0\n",
        ..ROW
    },
    // an address in code, and in data
    Row {
        a: Text(".global _start\n_start: svc #0\n.word d\n.data\nd: .word 0"),
        err: "fdpic: link RelocType 0 0 4\n",
        ..ROW
    },
    Row {
        a: Text(".global _start\n_start: svc #0\n.data\nd: .word d"),
        ..ROW
    },
    // the end of the code is an address of it, and what lies behind it is none
    Row {
        a: Text(".global _start\n_start: svc #0\ne:\n.data\n.word e"),
        ..ROW
    },
    Row {
        a: Text(".global _start\n_start: svc #0\ne:\n.data\n.word e+1"),
        err: "fdpic: link CrossSegment 0 1 0\n",
        ..ROW
    },
    // a word of the GOT has no addend
    Row {
        a: Changed(
            ".global _start\n_start: svc #0\n.word d(GOT)\n.data\nd: .word 0",
            &[(56, 4)],
        ),
        err: "fdpic: link RelocType 0 0 4\n",
        ..ROW
    },
    // descriptors are of functions: at a multiple of 4 in code, or at its end
    Row {
        a: Text(".global _start\n_start: svc #0\ne:\n.data\n.word e(FUNCDESC)"),
        ..ROW
    },
    Row {
        a: Text(".global _start\n_start: svc #0\n.byte 0\n.byte 0\nh:\n.data\n.word h(FUNCDESC)"),
        err: "fdpic: link RelocType 0 1 0\n",
        ..ROW
    },
    Row {
        a: Text(".global _start\n_start: svc #0\n.word r(GOTFUNCDESC)\n.rodata\nr: .word 0"),
        err: "fdpic: link RelocType 0 0 4\n",
        ..ROW
    },
    Row {
        a: Text(".global _start\n_start: svc #0\n.word d(GOTOFFFUNCDESC)\n.data\nd: .word 0"),
        err: "fdpic: link RelocType 0 0 4\n",
        ..ROW
    },
    // no module has a descriptor of what is nowhere, but there can be a word about it
    Row {
        a: Text(".global _start\n_start: svc #0\n.weak w\n.word w(GOTOFFFUNCDESC)"),
        err: "fdpic: link RelocType 0 0 4\n",
        ..ROW
    },
    Row {
        a: Text(".global _start\n_start: svc #0\n.weak w\n.word w(GOTFUNCDESC)"),
        ..ROW
    },
    // relocations come before the entry, which isn't there
    Row {
        a: Text(".word d\n.data\nd: .word 0"),
        err: "fdpic: link RelocType 0 0 0\n",
        ..ROW
    },
];

#[test]
fn relocations_are_refused(rt: HostRuntime) -> Result<(), Fail> {
    check_rows(&rt, rt.alloc(), &RELOCATIONS)
}
