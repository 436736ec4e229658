//! Programs whose addresses are listed as fixups, at 0x10010 and 0x10014: one that is made by hand, and one that is linked.

use super::{Case, ORDINARY, check_over};
use crate::files::{Image, add, change};
use fd_base::MemStore;
use std::alloc::Global;
use std::process::Abort;
use std::test::Fail;

/// Prints the two words, and ends with r9.
const CODE: [u32; 5] = [
    0xe289_0010,
    0xe3a0_1008,
    0xef00_0001,
    0xe1a0_0009,
    0xef00_0000,
];

/// A program of 20 bytes of text and 40 of data, whose second word with an address is given.
fn program(alloc: Global, second: u32) -> Result<Vec<u8>, Fail> {
    let mut image = Image::new(alloc);
    put_program(&mut image, second)?;
    Ok(image.bytes)
}

fn put_program(image: &mut Image, second: u32) -> Result<(), Fail> {
    image.header_of_sections(0, 3, [3, 2], 240)?;
    image.segment(1, [148, 0], [20, 20], 5)?;
    image.segment(1, [168, 0x1_0000], [40, 40], 6)?;
    image.segment(2, [192, 0x1_0018], [16, 16], 4)?;
    image.words(&CODE)?;
    image.words(&[0, 0, 0, 0, 8, second, 21, 0, 0, 0])?;
    image.words(&[0x1_0010, 0x1_0014, 0x1_0000])?;
    image.bytes.extend_from_slice(b"\0.rofixup\0.shstrtab\0")?;
    image.words(&[0; 10])?;
    image.words(&[1, 1, 2, 0, 208, 12, 0, 0, 4, 0])?;
    image.words(&[10, 3, 0, 0, 220, 20, 0, 0, 1, 0])
}

const JOB: &[u8] = b"fdpic-job 1\nprogram s\nmode eager\nplace s 0x20000 0x30000\n";

const LOST: &[u8] = b"fdpic: load BadAddress 0 0x00010014\n";

/// The second word, and what is printed or said.
const WORDS: [(u32, &[u8], &[u8]); 6] = [
    (
        0x1_0010,
        b"load 0 s\nout 3 0 0800020010000300\nexit 5 0 196608\n",
        b"",
    ),
    (0x5_0000, b"", LOST),
    // the end of the text, and what is neither in the text nor in the data
    (
        0x14,
        b"load 0 s\nout 3 0 0800020014000200\nexit 5 0 196608\n",
        b"",
    ),
    (0x15, b"", LOST),
    // the end of the data, and what lies behind it
    (
        0x1_0028,
        b"load 0 s\nout 3 0 0800020028000300\nexit 5 0 196608\n",
        b"",
    ),
    (0x1_0029, b"", LOST),
];

fn runs(
    rt: &impl Abort,
    alloc: Global,
    store: &mut MemStore,
    out: &'static [u8],
    err: &'static [u8],
) -> Result<(), Fail> {
    add(store, alloc, b"s.job", JOB)?;
    let case = Case {
        words: b"run s.job",
        status: if err.is_empty() { 0 } else { 5 },
        out,
        err,
        ..ORDINARY
    };
    check_over(rt, alloc, store, &case)
}

#[test]
fn fixups_are_translated(rt: HostRuntime) -> Result<(), Fail> {
    let alloc = rt.alloc();
    for (second, out, err) in WORDS {
        let mut store = MemStore::new(alloc);
        let bytes = program(alloc, second)?;
        add(&mut store, alloc, b"s", &bytes)?;
        runs(&rt, alloc, &mut store, out, err)?;
    }
    Ok(())
}

/// A program that prints its two words and ends with r9. Its first word names `l`, at 20, and its second one itself.
const TEXT: &[u8] = b".global _start
_start: add r0, r9, #16
 mov r1, #8
 svc #1
 mov r0, r9
 svc #0
l: bx lr
.data
.align 16
.word l
w: .word w
";

/// The tables of a program that stands alone are 76 bytes, and 4 for each fixup.
const LINKING: [Case; 3] = [
    Case {
        words: b"as a.o a.s",
        ..ORDINARY
    },
    Case {
        words: b"link s static a.o",
        ..ORDINARY
    },
    Case {
        words: b"show s",
        out: b"object exec entry 0x00000000 got 0x00010000
segment 0 0x00000000 0x00000018 0x00000018 5 16
segment 1 0x00010000 0x00000018 0x00000018 6 16
segment 2 0x00011000 0x00000054 0x00000054 4 16
fixup 0 0x00010010
fixup 1 0x00010014
",
        ..ORDINARY
    },
];

/// In the file 180 bytes of headers come first, then from 192 on 24 of text, and from 224 on the data. So the second word is
/// there at 244, and its bytes 0x14, 0, 1 and 0.
const SECOND: [(usize, u8); 2] = [(244, 0), (246, 5)];

#[test]
fn linked_fixups_are_translated(rt: HostRuntime) -> Result<(), Fail> {
    let alloc = rt.alloc();
    let mut store = MemStore::new(alloc);
    add(&mut store, alloc, b"a.s", TEXT)?;
    for case in &LINKING {
        check_over(&rt, alloc, &mut store, case)?;
    }
    let out = b"load 0 s\nout 3 0 1400020014000300\nexit 5 0 196608\n";
    runs(&rt, alloc, &mut store, out, b"")?;
    change(&mut store, alloc, b"s", &SECOND)?;
    runs(&rt, alloc, &mut store, b"", LOST)
}
