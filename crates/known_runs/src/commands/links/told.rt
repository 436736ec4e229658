//! What linked objects tell the loader. The text begins at 0 and the data at 0x10000, with the GOT, whose header has 12 bytes.

use super::rows::Input::Text;
use super::rows::{ROW, Row, check_rows};
use std::test::Fail;

const PROGRAM: &str = "link s program a.o";

const SHARED: &str = "link s shared a.o";

/// What the loader is told. Tables in order: hash (8 bytes, and 8 for each symbol), symbols, strings, relocations, slots and
/// dynamic entries (7, one for each library, and 3 each for relocations and for slots).
const TOLD: [Row; 5] = [
    // the entry of the PLT begins at a multiple of 4: 32 + 48 + 12 + 8 + 80
    Row {
        a: Text(".global _start\n_start: bl foo\n.byte 1"),
        words: PROGRAM,
        then: "show s",
        out: "object exec entry 0x00000000 got 0x00010000
segment 0 0x00000000 0x00000030 0x00000030 5 16
segment 1 0x00010000 0x00000014 0x00000014 6 16
segment 2 0x00011000 0x000000b4 0x000000b4 4 16
symbol 0 - local notype default undef 0x00000000 0
symbol 1 _start global notype default here 0x00000000 0
symbol 2 foo global notype default undef 0x00000000 0
jmprel 0 0x0001000c 164 2
",
        ..ROW
    },
    // a hidden function isn't in the table, and a protected one is: 32 + 48 + 12 + 56
    Row {
        a: Text(
            ".global _start\n_start: svc #0\n.global h\n.hidden h\nh: svc #0\n.global p\n.protected p\np: svc #0",
        ),
        words: PROGRAM,
        then: "show s",
        out: "object exec entry 0x00000000 got 0x00010000
segment 0 0x00000000 0x0000000c 0x0000000c 5 16
segment 1 0x00010000 0x0000000c 0x0000000c 6 16
segment 2 0x00011000 0x00000094 0x00000094 4 16
symbol 0 - local notype default undef 0x00000000 0
symbol 1 _start global notype default here 0x00000000 0
symbol 2 p global notype protected here 0x00000008 0
",
        ..ROW
    },
    // names stand as they first appear, defined or not: 40 + 64 + 12 + 56
    Row {
        a: Text(".global _start\n_start: b f\n b g"),
        b: Text(".global g\ng: bx lr\n.global f\nf: bx lr"),
        words: "link s program a.o b.o",
        then: "show s",
        out: "object exec entry 0x00000000 got 0x00010000
segment 0 0x00000000 0x00000010 0x00000010 5 16
segment 1 0x00010000 0x0000000c 0x0000000c 6 16
segment 2 0x00011000 0x000000ac 0x000000ac 4 16
symbol 0 - local notype default undef 0x00000000 0
symbol 1 _start global notype default here 0x00000000 0
symbol 2 f global notype default here 0x0000000c 0
symbol 3 g global notype default here 0x00000008 0
",
        ..ROW
    },
    // a descriptor is in the GOT, and its relocation comes before that of a word behind it: 24 + 32 + 8 + 16 + 80
    Row {
        a: Text(
            ".global _start\n_start: ldr r0, [r9, #20]\n svc #0\nf: bx lr\n.data\n.word f(FUNCDESC)",
        ),
        words: PROGRAM,
        then: "show s",
        out: "object exec entry 0x00000000 got 0x00010000
segment 0 0x00000000 0x0000000c 0x0000000c 5 16
segment 1 0x00010000 0x00000018 0x00000018 6 16
segment 2 0x00011000 0x000000a0 0x000000a0 4 16
symbol 0 - local notype default undef 0x00000000 0
symbol 1 _start global notype default here 0x00000000 0
rel 0 0x0001000c 164 0
rel 1 0x00010014 23 0
",
        ..ROW
    },
    // alone, the two words of the descriptor and that word are fixups
    Row {
        a: Text(
            ".global _start\n_start: ldr r0, [r9, #20]\n svc #0\nf: bx lr\n.data\n.word f(FUNCDESC)",
        ),
        then: "show s",
        out: "object exec entry 0x00000000 got 0x00010000
segment 0 0x00000000 0x0000000c 0x0000000c 5 16
segment 1 0x00010000 0x00000018 0x00000018 6 16
segment 2 0x00011000 0x00000058 0x00000058 4 16
fixup 0 0x0001000c
fixup 1 0x00010010
fixup 2 0x00010014
",
        ..ROW
    },
];

/// The same of shared objects, which have an entry for the soname, and its two bytes of strings.
const SHARING: [Row; 4] = [
    // another module can take the place of a function, and so its own call goes through the PLT: 24 + 32 + 8 + 8 + 88
    Row {
        a: Text(".global f\nf: bl f"),
        words: SHARED,
        then: "show s",
        out: "object dyn entry 0x00000000 got 0x00010000
segment 0 0x00000000 0x0000002c 0x0000002c 5 16
segment 1 0x00010000 0x00000014 0x00000014 6 16
segment 2 0x00011000 0x000000a0 0x000000a0 4 16
soname s
symbol 0 - local notype default undef 0x00000000 0
symbol 1 f global notype default here 0x00000000 0
jmprel 0 0x0001000c 164 1
",
        ..ROW
    },
    // a hidden one it calls straight, wherever it is hidden: 24 + 32 + 8 + 64
    Row {
        a: Text(".global g\ng: bl f\n bx lr"),
        b: Text(".global f\n.hidden f\nf: bx lr"),
        words: "link s shared a.o b.o",
        then: "show s",
        out: "object dyn entry 0x00000000 got 0x00010000
segment 0 0x00000000 0x0000000c 0x0000000c 5 16
segment 1 0x00010000 0x0000000c 0x0000000c 6 16
segment 2 0x00011000 0x00000080 0x00000080 4 16
soname s
symbol 0 - local notype default undef 0x00000000 0
symbol 1 g global notype default here 0x00000000 0
",
        ..ROW
    },
    // each kind of what is left to the loader: 24 + 32 + 8 + 40 + 88
    Row {
        a: Text(
            ".global f\nf: bx lr\n.word f(GOT)\n.word f(GOTFUNCDESC)\n.data\n.word f\n.word f(FUNCDESC)\n.word f+4",
        ),
        words: SHARED,
        then: "show s",
        out: "object dyn entry 0x00000000 got 0x00010000
segment 0 0x00000000 0x0000000c 0x0000000c 5 16
segment 1 0x00010000 0x00000020 0x00000020 6 16
segment 2 0x00011000 0x000000c0 0x000000c0 4 16
soname s
symbol 0 - local notype default undef 0x00000000 0
symbol 1 f global notype default here 0x00000000 0
rel 0 0x0001000c 21 1
rel 1 0x00010010 163 1
rel 2 0x00010014 2 1
rel 3 0x00010018 163 1
rel 4 0x0001001c 2 1
",
        ..ROW
    },
    // what is called a function and can't be called loses its type, at the end of the text and in the data: 40 + 64 + 12 + 64
    Row {
        a: Text(
            ".global f\n.type f func\nf: bx lr\n.global e\n.type e func\ne:\n.data\n.global d\n.type d func\nd: .word 0",
        ),
        words: SHARED,
        then: "show s",
        out: "object dyn entry 0x00000000 got 0x00010000
segment 0 0x00000000 0x00000004 0x00000004 5 16
segment 1 0x00010000 0x00000010 0x00000010 6 16
segment 2 0x00011000 0x000000b4 0x000000b4 4 16
soname s
symbol 0 - local notype default undef 0x00000000 0
symbol 1 f global func default here 0x00000000 0
symbol 2 e global notype default here 0x00000004 0
symbol 3 d global notype default here 0x0001000c 0
",
        ..ROW
    },
];

#[test]
fn loaders_are_told(rt: HostRuntime) -> Result<(), Fail> {
    check_rows(&rt, rt.alloc(), &TOLD)?;
    check_rows(&rt, rt.alloc(), &SHARING)
}
