//! Objects written out word by word, and the same with one word changed.

use crate::checks::{holds, holds_at, same, same_at};
use elf_model::{Extent, Inits, Kind, Object, Place, Rel, Symbol, hash};
use elf_read::ElfKind::*;
use elf_read::{ElfKind, ReadErr, read_object};
use fd_base::{Name, Seq};
use std::alloc::{AllocError, Global};
use std::process::Abort;
use std::test::Fail;

/// A shared object with the headers, tags and flags that linkers write beside those that are looked at. The text is
/// the file up to the data, at link address 0; the data is at 0x10000.
const WHOLE: [u32; 178] = [
    // header
    0x464c_457f,
    0x4101_0101,
    0,
    0,
    0x0028_0003,
    1,
    244,
    52,
    592,
    0x0500_0200,
    0x0020_0034,
    0x0028_0006,
    0x0002_0003, //
    // 52: an interpreter, the headers, text, data, a stack and the dynamic section
    3,
    0,
    0,
    0,
    0,
    0,
    4,
    1, //
    6,
    52,
    52,
    52,
    192,
    192,
    4,
    4, //
    1,
    0,
    0,
    0,
    552,
    0x400,
    5,
    0x10000, //
    1,
    552,
    0x10000,
    0x10000,
    40,
    0x100,
    6,
    0x10000, //
    0x6474_e551,
    0,
    0,
    0,
    0,
    0,
    6,
    16, //
    2,
    368,
    368,
    368,
    160,
    160,
    4,
    4, //
    // 244: hash table, three symbols, strings
    1,
    3,
    1,
    0,
    2,
    0, //
    0,
    0,
    0,
    0, //
    1,
    0x10020,
    4,
    0x0001_0011, //
    3,
    244,
    4,
    0x0001_0212, //
    0x6600_7800,
    0x6269_6c00,
    0x0065_6d00, //
    // 328: relocations, the last of them that of the slot
    0x10014,
    23,
    0x10018,
    0x102,
    0x1001c,
    0x2a3,
    0,
    0,
    0x1000c,
    0x2a4, //
    // 368: NEEDED, SONAME, HASH, STRTAB, STRSZ, SYMTAB, SYMENT
    1,
    5,
    14,
    9,
    4,
    244,
    5,
    316,
    10,
    12,
    6,
    268,
    11,
    16, //
    // 424: REL, RELSZ, RELENT, JMPREL, PLTRELSZ, PLTREL, PLTGOT
    17,
    328,
    18,
    40,
    19,
    8,
    23,
    360,
    2,
    8,
    20,
    17,
    3,
    0x10000, //
    // 480: DEBUG, INIT, INIT_ARRAY, INIT_ARRAYSZ, FLAGS, NULL
    21,
    0,
    12,
    244,
    25,
    0x10020,
    27,
    4,
    30,
    10,
    0,
    0, //
    // 528: .rofixup, the names of sections
    0x10020,
    0x10024,
    0x10000,
    0x6f72_2e00,
    0x7578_6966,
    0x70, //
    // 552: the data
    0,
    0,
    0,
    0,
    0,
    0x55,
    0,
    0,
    244,
    244, //
    // 592: section headers
    0,
    0,
    0,
    0,
    0,
    0,
    0,
    0,
    0,
    0, //
    1,
    1,
    2,
    528,
    528,
    12,
    0,
    0,
    4,
    4, //
    0,
    3,
    0,
    0,
    540,
    12,
    0,
    0,
    1,
    0,
];

/// An object of two segments with one slot and no symbols.
const PLAIN: [u32; 54] = [
    0x464c_457f,
    0x4101_0101,
    0,
    0,
    0x0028_0003,
    1,
    0,
    52,
    0,
    0x0500_0000,
    0x0020_0034,
    0x0028_0003,
    0, //
    1,
    0,
    0,
    0,
    0,
    0x400,
    5,
    16, //
    1,
    148,
    0x10000,
    0,
    68,
    0x100,
    6,
    16, //
    2,
    176,
    0x1001c,
    0,
    40,
    40,
    4,
    4, //
    0,
    0,
    0,
    0x300,
    0,
    0x1000c,
    164, //
    3,
    0x10000,
    23,
    0x10014,
    2,
    8,
    20,
    17,
    0,
    0,
];

/// Refusals of `WHOLE` with the word at an offset changed, in the order of the tests.
const REFUSALS: [(usize, u32, ElfKind, u32); 57] = [
    (4, 0x4101_0201, Ident, 5),
    (4, 0x0001_0101, Ident, 7),
    (16, 0x0003_0001, Machine, 18),
    (36, 0x0400_0200, Machine, 36),
    (16, 0x0028_0001, FileType, 16),
    (20, 2, Header, 20),
    (40, 0x0021_0034, Header, 42),
    (44, 0x0028_0000, Header, 44),
    (28, 521, Header, 28),
    (44, 0x0029_0006, Header, 46),
    (32, 593, Header, 32),
    (48, 0x0003_0003, Header, 50),
    (164, 161, SegmentRange, 148),
    (168, 36, SegmentRange, 148),
    (156, 0xffff_ff00, SegmentRange, 148),
    (176, 24, SegmentRange, 148),
    (156, 0x3fc, SegmentOverlap, 148),
    (212, 7, Tls, 212),
    (228, 152, DynRange, 212),
    (220, 0x10000, DynRange, 212),
    (480, 7, Rela, 480),
    (468, 7, Rela, 464),
    (480, 22, TextRel, 480),
    (516, 4, TextRel, 512),
    (420, 24, Table, 416),
    (444, 12, Table, 440),
    (652, 10, Table, 632),
    (476, 0x10002, NoGot, 212),
    (476, 0x200, NoGot, 212),
    (400, 21, Table, 392),
    (388, 0x10100, Table, 384),
    (384, 21, NoCount, 212),
    (248, 65_537, TooMany, 408),
    (248, 18, Table, 408),
    (284, 12, NameRange, 284),
    (296, 0x0001_0016, Tls, 284),
    (296, 0xfff2_0011, Table, 284),
    (304, 245, Thumb, 300),
    (304, 246, FunctionPlace, 300),
    (304, 0x10000, FunctionPlace, 300),
    (312, 0xfff1_0212, FunctionPlace, 300),
    (372, 0, NameRange, 368),
    (380, 12, NameRange, 376),
    (404, 11, NameRange, 376),
    (436, 36, Table, 424),
    (432, 21, Table, 424),
    (460, 12, Table, 448),
    (332, 24, RelocType, 328),
    (340, 0x302, Table, 336),
    (328, 0x10016, SiteRange, 328),
    (328, 0x200, SiteRange, 328),
    (328, 0x10008, SiteOverlap, 328),
    (336, 0x10014, SiteOverlap, 336),
    (364, 0x217, RelocType, 360),
    (360, 0x100fc, SiteRange, 360),
    (528, 0x10022, SiteRange, 528),
    (532, 0x10020, SiteOverlap, 532),
];

/// The file of these words, with the word at an offset in bytes changed.
pub fn file(
    alloc: Global,
    words: &[u32],
    change: Option<(usize, u32)>,
) -> Result<Vec<u8>, AllocError> {
    let mut bytes = Vec::new(alloc);
    let mut offset = 0usize;
    for word in words {
        let word = match change {
            Some((place, changed)) if place == offset => changed,
            _ => *word,
        };
        bytes.extend_from_slice(&word.to_le_bytes())?;
        offset = offset.saturating_add(4);
    }
    Ok(bytes)
}

/// The file of `WHOLE`, with one word changed.
fn whole(alloc: Global, change: Option<(usize, u32)>) -> Result<Vec<u8>, AllocError> {
    file(alloc, &WHOLE, change)
}

/// How the file is refused of which one word is changed.
fn refusal_of(
    alloc: Global,
    place: usize,
    word: u32,
) -> Result<Option<(ElfKind, u32)>, AllocError> {
    let bytes = whole(alloc, Some((place, word)))?;
    Ok(refusal(alloc, &bytes))
}

/// How bytes are refused. None where they are an object, are too long for these tests, or memory is wanted.
pub fn refusal(alloc: Global, bytes: &[u8]) -> Option<(ElfKind, u32)> {
    if bytes.len() > 10_000 {
        return None;
    }
    match read_object(alloc, bytes) {
        Ok(_) => None,
        Err(ReadErr::Memory) => None,
        Err(ReadErr::Refused(r)) => Some((r.kind, r.at)),
    }
}

/// The object of a file of 712 bytes.
fn object_of(alloc: Global, bytes: &[u8]) -> Result<Object, Fail> {
    if bytes.len() != 712 {
        return Err("another length")?;
    }
    Ok(read_object(alloc, bytes).ok().ok_or("refused")?)
}

fn has_segments(rt: &impl Abort, o: &Object, bytes: &[u8]) {
    same(rt, (o.kind, o.entry, o.got), (Kind::Dyn, 244, 0x10000));
    let wanted = [
        (0, 0x400, 5, bytes.get(..552)),
        (0x10000, 0x100, 6, bytes.get(552..592)),
    ];
    same(rt, o.segments.len(), wanted.len());
    for (s, (vaddr, memsz, flags, filled)) in o.segments.as_slice().iter().zip(wanted) {
        same(
            rt,
            [s.vaddr, s.memsz, s.flags, s.align],
            [vaddr, memsz, flags, 0x10000],
        );
        same(rt, Some(s.filled.as_slice()), filled);
    }
}

fn has_tables(rt: &impl Abort, o: &Object) {
    let needed = o.needed.as_slice().first().map(Name::as_slice);
    same(rt, (o.needed.len(), needed), (1, Some(b"lib".as_slice())));
    let soname = o.soname.as_ref().map(Name::as_slice);
    same(rt, soname, Some(b"me".as_slice()));
    let own = [(0x10014, 23, 0), (0x10018, 2, 1), (0x1001c, 163, 2)];
    same(rt, o.rels.len(), own.len());
    for (rel, (site, kind, symbol)) in o.rels.as_slice().iter().zip(own) {
        same(rt, *rel, Rel { site, kind, symbol });
    }
    let slot = Rel {
        site: 0x1000c,
        kind: 164,
        symbol: 2,
    };
    same(rt, o.jmprels.as_slice(), [slot].as_slice());
    let fixups = o.fixups.as_ref().map(Seq::as_slice);
    same(rt, fixups, Some([0x10020, 0x10024].as_slice()));
    holds(rt, o.symbolic && o.now);
    let inits = Inits {
        init: Some(244),
        fini: None,
        init_array: Some(Extent {
            addr: 0x10020,
            size: 4,
        }),
        fini_array: None,
    };
    holds(rt, o.inits == inits);
}

/// A symbol that is defined in the object, by its name, its value and size, and its binding, kind and visibility.
fn is_symbol(rt: &impl Abort, symbol: &Symbol, name: &[u8], extent: [u32; 2], kinds: [u8; 3]) {
    same(rt, symbol.name.as_ref().map(Name::as_slice), Some(name));
    same(rt, [symbol.value, symbol.size], extent);
    same(rt, [symbol.binding, symbol.kind, symbol.visibility], kinds);
    holds(rt, symbol.place == Place::Here);
}

fn has_symbols(rt: &impl Abort, o: &Object) {
    match o.symbols.as_slice() {
        [null, x, f] => {
            holds(rt, null.name.is_none() && null.place == Place::Undefined);
            is_symbol(rt, x, b"x", [0x10020, 4], [1, 1, 0]);
            is_symbol(rt, f, b"f", [244, 4], [1, 2, 2]);
        }
        other => same(rt, other.len(), 3),
    }
}

#[test]
fn an_object(rt: HostRuntime) -> Result<(), Fail> {
    let bytes = whole(rt.alloc(), None)?;
    let o = object_of(rt.alloc(), &bytes)?;
    has_segments(&rt, &o, &bytes);
    has_tables(&rt, &o);
    has_symbols(&rt, &o);
    Ok(())
}

#[test]
fn hashes(rt: HostRuntime) -> Result<(), Fail> {
    for (text, wanted) in [
        ("ab", 0x672),
        ("printf", 0x0779_05a6),
        ("exit", 0x0006_cf04),
    ] {
        let name = Name::new(rt.alloc(), text.as_bytes())
            .ok()
            .ok_or("no name")?;
        same_at(&rt, text, hash(&name), wanted);
    }
    Ok(())
}

#[test]
fn refusals(rt: HostRuntime) -> Result<(), Fail> {
    for (place, word, kind, at) in REFUSALS {
        let refused = refusal_of(rt.alloc(), place, word)?;
        holds_at(&rt, place, refused == Some((kind, at)));
    }
    // The list of fixups names the GOT too.
    holds(&rt, refusal_of(rt.alloc(), 472, 21)?.is_none());
    Ok(())
}

/// Each shorter file is refused: within the ELF header, within the headers behind it, and past those in one way.
fn has_no_prefix(
    rt: &impl Abort,
    alloc: Global,
    bytes: &[u8],
    headers: usize,
    past: (ElfKind, u32),
) {
    for len in 0..bytes.len() {
        let wanted = if len < 52 {
            (Short, len as u32)
        } else if len < headers {
            (Header, 28)
        } else {
            past
        };
        holds_at(rt, len, refusal(alloc, &bytes[..len]) == Some(wanted));
    }
}

#[test]
fn prefixes(rt: HostRuntime) -> Result<(), Fail> {
    let plain = file(rt.alloc(), &PLAIN, None)?;
    holds(&rt, refusal(rt.alloc(), &plain).is_none());
    has_no_prefix(&rt, rt.alloc(), &plain, 148, (SegmentRange, 84));
    let whole = whole(rt.alloc(), None)?;
    has_no_prefix(&rt, rt.alloc(), &whole, 244, (Header, 32));
    Ok(())
}

/// The header of a file of these program headers and no sections.
fn header(alloc: Global, count: u32) -> Result<Vec<u32>, AllocError> {
    let mut words = Vec::from_slice(alloc, &PLAIN[..11])?;
    words.push(count | 0x0028_0000)?;
    words.push(0)?;
    Ok(words)
}

/// A file of segments without bytes, each apart from the others.
fn many_segments(alloc: Global, count: u32) -> Result<Vec<u8>, AllocError> {
    let mut words = header(alloc, count)?;
    for i in 0..count.min(100) {
        words.extend_from_slice(&[1, 0, 0x1000 * i, 0, 0, 16, 6, 4])?;
    }
    file(alloc, &words, None)
}

/// A file of one segment whose dynamic section needs an object of the name `a` so many times.
fn many_needed(alloc: Global, count: u32) -> Result<Vec<u8>, AllocError> {
    let count = count.min(100);
    let mut words = header(alloc, 2)?;
    let size = 132 + 8 * count + 32;
    words.extend_from_slice(&[1, 0, 0, 0, size, size, 6, 4])?;
    words.extend_from_slice(&[2, 132, 132, 0, size - 132, 0, 4, 4])?;
    words.extend_from_slice(&[0, 0, 0, 0x0000_6100])?;
    for _ in 0..count {
        words.extend_from_slice(&[1, 1])?;
    }
    words.extend_from_slice(&[5, 128, 10, 4, 3, 116, 0, 0])?;
    file(alloc, &words, None)
}

#[test]
fn limits(rt: HostRuntime) -> Result<(), Fail> {
    // Without a dynamic section there is no GOT, which is reported at the field e_phoff.
    let rows = [(8, Some((NoGot, 28))), (9, Some((TooMany, 308)))];
    for (count, wanted) in rows {
        let bytes = many_segments(rt.alloc(), count)?;
        holds_at(&rt, count, refusal(rt.alloc(), &bytes) == wanted);
    }
    let rows = [(64, None), (65, Some((TooMany, 644)))];
    for (count, wanted) in rows {
        let bytes = many_needed(rt.alloc(), count)?;
        holds_at(&rt, count, refusal(rt.alloc(), &bytes) == wanted);
    }
    Ok(())
}
