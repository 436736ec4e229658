//! Each kind of refusal that can come first, by words of a small file that are changed.

use crate::checks::{file, holds_at, refusal};
use crate::files::WHOLE;
use elf_model::ElfKind;
use elf_model::ElfKind::{
    FileType, Group, Header, Ident, Machine, NameRange, Rela, Short, SiteRange, Table, Thumb, Tls,
    TooMany,
};
use std::alloc::{AllocError, Global};
use std::test::Fail;

/// The offset in bytes of a word, the word in its place, and the refusal.
const ONE_WORD: [(usize, u32, ElfKind, u32); 38] = [
    (0, 0x464c_457e, Ident, 0),
    (4, 0x0001_0201, Ident, 5),
    (4, 0x6101_0101, Ident, 7),
    (16, 0x0029_0001, Machine, 18),
    (36, 0x0400_0000, Machine, 36),
    (16, 0x0028_0000, FileType, 16),
    (16, 0x0028_0002, FileType, 16),
    (20, 2, Header, 20),
    (32, 169, Header, 32),
    (44, 0x0029_0000, Header, 46),
    (48, 0x0005_0000, Header, 48),
    (48, 0x0006_0006, Header, 50),
    (172, 17, Group, 168),
    (212, 17, Group, 208),
    (216, 0x406, Tls, 208),
    (96, 0x0001_0016, Tls, 84),
    (240, 3, Table, 208),
    (240, 8192, Table, 208),
    (228, 357, Table, 208),
    (308, 47, Table, 288),
    (312, 6, Table, 288),
    (348, 293, Table, 288),
    (372, 2, Table, 368),
    (96, 0x0001_0032, Table, 84),
    (96, 0x0006_0012, Table, 84),
    (268, 7, Table, 248),
    (264, 401, Table, 248),
    (64, 0x0000_031d, Table, 60),
    (208, 44, NameRange, 208),
    (84, 8, NameRange, 84),
    (100, 0, NameRange, 100),
    (88, 1, Thumb, 84),
    (88, 0x0001_0001, Thumb, 84),
    (252, 4, Rela, 248),
    (60, 5, SiteRange, 60),
    (60, 0xffff_fffc, SiteRange, 60),
    (212, 8, SiteRange, 60),
    (228, 7, SiteRange, 60),
];

/// Words with which the file is accepted still: the OS/ABI of FDPIC, an odd value of a symbol that isn't defined, a text
/// without memory at run time, whose relocations aren't looked at, and an offset of the null section.
const TAKEN: [(usize, u32); 4] = [(4, 0x4101_0101), (104, 1), (216, 4), (184, 0x1000_0000)];

#[test]
fn one_word(rt: HostRuntime) -> Result<(), Fail> {
    for (place, word, kind, at) in ONE_WORD {
        let bytes = file(rt.alloc(), &WHOLE, &[(place, word)])?;
        holds_at(&rt, place, refusal(rt.alloc(), &bytes) == Some((kind, at)));
    }
    for (place, word) in TAKEN {
        let bytes = file(rt.alloc(), &WHOLE, &[(place, word)])?;
        holds_at(&rt, place, refusal(rt.alloc(), &bytes).is_none());
    }
    Ok(())
}

#[test]
fn several_words(rt: HostRuntime) -> Result<(), Fail> {
    // The strings of sections are relocations with addends of section 1.
    let bytes = file(rt.alloc(), &WHOLE, &[(332, 4), (356, 1)])?;
    holds_at(&rt, 332, refusal(rt.alloc(), &bytes) == Some((Rela, 328)));
    // An absolute function at an odd address.
    let bytes = file(rt.alloc(), &WHOLE, &[(88, 3), (96, 0xfff1_0012)])?;
    holds_at(&rt, 88, refusal(rt.alloc(), &bytes) == Some((Thumb, 84)));
    Ok(())
}

#[test]
fn prefixes(rt: HostRuntime) -> Result<(), Fail> {
    let whole = file(rt.alloc(), &WHOLE, &[])?;
    holds_at(&rt, "the whole", refusal(rt.alloc(), &whole).is_none());
    for len in 0..whole.len() {
        let wanted = if len < 52 {
            (Short, len as u32)
        } else {
            (Header, 32)
        };
        holds_at(&rt, len, refusal(rt.alloc(), &whole[..len]) == Some(wanted));
    }
    Ok(())
}

/// The file with some words changed, and zeros behind it.
fn long(alloc: Global, changes: &[(usize, u32)], len: usize) -> Result<Vec<u8>, AllocError> {
    let mut bytes = file(alloc, &WHOLE, changes)?;
    bytes.resize(len, 0)?;
    Ok(bytes)
}

#[test]
fn limits(rt: HostRuntime) -> Result<(), Fail> {
    // 65,537 symbols, and as many relocations of one section.
    let bytes = long(rt.alloc(), &[(308, 1_048_592)], 1_048_660)?;
    holds_at(
        &rt,
        308,
        refusal(rt.alloc(), &bytes) == Some((TooMany, 288)),
    );
    let bytes = long(rt.alloc(), &[(268, 524_296)], 524_356)?;
    holds_at(
        &rt,
        268,
        refusal(rt.alloc(), &bytes) == Some((TooMany, 248)),
    );
    // Text and a note of 4,194,305 bytes together.
    let note = [
        (228, 2_097_153),
        (332, 7),
        (336, 2),
        (344, 0),
        (348, 2_097_152),
    ];
    let bytes = long(rt.alloc(), &note, 2_097_205)?;
    holds_at(
        &rt,
        348,
        refusal(rt.alloc(), &bytes) == Some((TooMany, 328)),
    );
    // A section may have as many bytes as all together, and no more.
    let bytes = long(rt.alloc(), &[(228, 4_194_304)], 4_194_356)?;
    holds_at(&rt, 228, refusal(rt.alloc(), &bytes).is_none());
    let bytes = long(rt.alloc(), &[(228, 4_194_305)], 4_194_357)?;
    holds_at(&rt, 228, refusal(rt.alloc(), &bytes) == Some((Table, 208)));
    Ok(())
}
