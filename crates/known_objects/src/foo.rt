//! A library of one function, written out word by word, and each shorter file.

use crate::checks::{holds, holds_at};
use crate::readers::{file, refusal};
use elf_read::ElfKind;
use elf_read::ElfKind::{Header, SegmentRange, Short};
use std::test::Fail;

/// `foo.so`: its function `foo` at link address 0, a GOT at 0x10000, and its tables at 0x11000, all without sections.
const FOO: [u32; 89] = [
    // header; 52: text, data, tables, the dynamic section
    0x464c_457f,
    0x4101_0101,
    0,
    0,
    0x0028_0003,
    1,
    0,
    52,
    0,
    0x0500_0000,
    0x0020_0034,
    0x0028_0004,
    0, //
    1,
    192,
    0,
    0,
    8,
    8,
    5,
    16, //
    1,
    208,
    0x10000,
    0x10000,
    12,
    12,
    6,
    16, //
    1,
    224,
    0x11000,
    0x11000,
    132,
    132,
    4,
    16, //
    2,
    292,
    0x11044,
    0x11044,
    64,
    64,
    4,
    4, //
    // 180: zeros, mov r0, #7, bx lr; zeros, the header of the GOT, zeros
    0,
    0,
    0,
    0xe3a0_0007,
    0xe12f_ff1e,
    0,
    0,
    0,
    0,
    0,
    0, //
    // 224: hash table, two symbols, strings
    2,
    2,
    0,
    1,
    0,
    0, //
    0,
    0,
    0,
    0,
    1,
    0,
    0,
    0x0001_0012, //
    0x6f6f_6600,
    0x6f6f_6600,
    0x006f_732e, //
    // 292: SONAME, HASH, STRTAB, STRSZ, SYMTAB, SYMENT, PLTGOT, NULL
    14,
    5,
    4,
    0x11000,
    5,
    0x11038,
    10,
    12,
    6,
    0x11018,
    11,
    16,
    3,
    0x10000,
    0,
    0,
];

/// The lengths from which files are refused in one way, and that way. A file that ends in its header is refused at its
/// length.
const PREFIXES: [(usize, ElfKind, u32); 4] = [
    (52, Header, 28),
    (180, SegmentRange, 52),
    (200, SegmentRange, 84),
    (220, SegmentRange, 116),
];

/// How the first bytes of the file are refused, by their number.
fn wanted(len: usize) -> (ElfKind, u32) {
    let mut wanted = (Short, u32::try_from(len).unwrap_or(0));
    for (least, kind, at) in PREFIXES {
        if least <= len {
            wanted = (kind, at);
        }
    }
    wanted
}

#[test]
fn prefixes_of_foo(rt: HostRuntime) -> Result<(), Fail> {
    let whole = file(rt.alloc(), &FOO, None)?;
    holds(&rt, refusal(rt.alloc(), &whole).is_none());
    for len in 0..whole.len() {
        holds_at(
            &rt,
            len,
            refusal(rt.alloc(), &whole[..len]) == Some(wanted(len)),
        );
    }
    Ok(())
}
