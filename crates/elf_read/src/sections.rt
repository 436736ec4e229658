//! The section headers, of which two are looked at: that of the list of fixups, and that of the symbols.

ghost use Rattle.std.specs.Prelude.{◌≡◌, ◌≤◌, ◌<◌, ◌^◌, ◌+◌, ◌*◌, length, find, IfOk, IfSome};
ghost use Rattle.elf_model.specs.Header.{e_shoff, e_shnum, e_shstrndx};
ghost use Rattle.elf_model.specs.Sections as spec;
ghost use Rattle.elf_read.specs.parts.HeaderTables.{HasSectionTable, IsFixupList, is_symbols_at};
ghost use Rattle.elf_read.specs.parts.Passes.{Reads};

use crate::error::ReadErr;
use crate::fields::{e_shnum, e_shoff, e_shstrndx};
use crate::header::passes_end;
use crate::refusals::refuse;
use crate::strings::string_at;
use elf_model::constants::{
    EHDR_SIZE, SH_ADDR, SH_ADDRALIGN, SH_FLAGS, SH_INFO, SH_LINK, SH_NAME, SH_OFFSET, SH_SIZE,
    SH_TYPE, SHDR_SIZE, SHT_DYNSYM, SYM_SIZE,
};
use elf_model::{ElfKind, SectionHeader};
use fd_base::{Memory, Words, word_in};
use std::alloc::Global;

/// Where section header `i` stands in the file.
pub fn section_offset(bytes: &[u8], i: u16) -> u32
    requires long { EHDR_SIZE ≤ length bytes.now }
    requires fits { e_shoff bytes.now + SHDR_SIZE * i < 2 ^ 32 }
    ensures { result ≡ spec.section_offset bytes.now i }
{
    e_shoff(bytes) + u32::from(SHDR_SIZE) * u32::from(i)
}

/// Section header `i`.
#[tactic(auto, unfolding(elf_model::specs::Sections::section_header))]
pub fn section_header(bytes: &[u8], i: u16) -> SectionHeader
    requires small { length bytes.now < 2 ^ 32 }
    requires long { EHDR_SIZE ≤ length bytes.now }
    requires inside { e_shoff bytes.now + SHDR_SIZE * i + SHDR_SIZE ≤ length bytes.now }
    ensures { result ≡ spec.section_header bytes.now i }
{
    let at = section_offset(bytes, i) as usize;
    SectionHeader {
        name: word_in(bytes, at + SH_NAME),
        kind: word_in(bytes, at + SH_TYPE),
        flags: word_in(bytes, at + SH_FLAGS),
        addr: word_in(bytes, at + SH_ADDR),
        offset: word_in(bytes, at + SH_OFFSET),
        size: word_in(bytes, at + SH_SIZE),
        link: word_in(bytes, at + SH_LINK),
        info: word_in(bytes, at + SH_INFO),
        align: word_in(bytes, at + SH_ADDRALIGN),
    }
}

/// The names of the sections.
#[tactic(auto, unfolding(elf_model::specs::Sections::section_names))]
pub fn section_names(bytes: &[u8]) -> &[u8]
    requires small { length bytes.now < 2 ^ 32 }
    requires long { EHDR_SIZE ≤ length bytes.now }
    requires inside { e_shoff bytes.now + SHDR_SIZE * e_shnum bytes.now ≤ length bytes.now }
    requires names { e_shstrndx bytes.now < e_shnum bytes.now }
    ensures { result.now ≡ spec.section_names bytes.now }
{
    let h = section_header(bytes, e_shstrndx(bytes));
    let size = h.size as usize;
    if passes_end(bytes, h.offset, size) {
        &[]
    } else {
        let start = h.offset as usize;
        &bytes[start..start + size]
    }
}

/// Whether a section has this name, which isn't longer than other names may be.
#[tactic(auto, using(crate::proofs::Near::is_named_near))]
fn is_named(names: &[u8], wanted: &[u8], h: &SectionHeader) -> bool
    requires { length wanted.now ≤ 255 }
    ensures { result ≡ spec.is_named names.now wanted.now h.now }
{
    match string_at(names, h.name) {
        None => false,
        Some(text) => text == wanted,
    }
}

/// Which section is the first of the name of a list of fixups.
#[tactic(auto, unfolding(elf_model::specs::Sections::rofixup_place))]
fn rofixup_place(bytes: &[u8]) -> Option<u16>
    requires small { length bytes.now < 2 ^ 32 }
    requires long { EHDR_SIZE ≤ length bytes.now }
    requires table { HasSectionTable bytes.now }
    ensures place { result ≡ spec.rofixup_place bytes.now }
    ensures within { IfSome result (λ i. i < e_shnum bytes.now) }
{
    let count = e_shnum(bytes);
    if count == 0 {
        return None;
    }
    let names = section_names(bytes);
    for i in 0..count {
        let h = section_header(bytes, i);
        if is_named(names, b".rofixup".as_slice(), &h) {
            return Some(i);
        }
    }
    None
}

/// The test of the list of fixups, and which section has it.
#[tactic(auto, unfolding(elf_model::specs::Sections::rofixup, elf_model::specs::Sections::rofixup_tests))]
pub fn read_rofixup(bytes: &[u8]) -> Result<Option<u16>, ReadErr>
    requires small { length bytes.now < 2 ^ 32 }
    requires long { EHDR_SIZE ≤ length bytes.now }
    requires table { HasSectionTable bytes.now }
    ensures tests { Reads (λ i. i) result (spec.rofixup_tests bytes.now) (spec.rofixup bytes.now) }
    ensures list { IfOk result (λ o. IfSome o (IsFixupList bytes.now)) }
{
    let Some(i) = rofixup_place(bytes) else {
        return Ok(None);
    };
    let h = section_header(bytes, i);
    if h.size == 0 {
        return Ok(None);
    }
    let is_wrong = passes_end(bytes, h.offset, h.size as usize) || h.size % 4 != 0;
    refuse(is_wrong, ElfKind::Table, section_offset(bytes, i))?;
    Ok(Some(i))
}

/// The last word of a list of fixups.
pub fn listed_got(bytes: &[u8], i: u16) -> u32
    requires small { length bytes.now < 2 ^ 32 }
    requires long { EHDR_SIZE ≤ length bytes.now }
    requires list { IsFixupList bytes.now i }
    ensures { result ≡ spec.listed_got bytes.now i }
{
    let h = section_header(bytes, i);
    let count = (h.size / 4 - 1) as usize;
    word_in(bytes, h.offset as usize + 4 * count)
}

/// Where a list of fixups begins in the file.
pub fn rofixup_offset(bytes: &[u8], i: u16) -> u32
    requires small { length bytes.now < 2 ^ 32 }
    requires long { EHDR_SIZE ≤ length bytes.now }
    requires list { IsFixupList bytes.now i }
    ensures { result ≡ spec.rofixup_offset bytes.now i 0 }
{
    section_header(bytes, i).offset
}

/// The words of a list of fixups but the last.
pub fn fixups_of(alloc: Global, bytes: &[u8], i: u16) -> Result<Words, Memory>
    requires small { length bytes.now < 2 ^ 32 }
    requires long { EHDR_SIZE ≤ length bytes.now }
    requires list { IsFixupList bytes.now i }
    ensures { IfOk result (λ w. w ≡ spec.fixups_of bytes.now i) }
{
    let h = section_header(bytes, i);
    let start = h.offset as usize;
    let mut fixups = Words::new(alloc);
    for k in 0..h.size / 4 - 1 {
        fixups.push(word_in(bytes, start + 4 * k as usize))?;
    }
    Ok(fixups)
}

/// The header of the first section of symbols at a link address.
fn symbol_section(bytes: &[u8], addr: u32) -> Option<SectionHeader>
    requires small { length bytes.now < 2 ^ 32 }
    requires long { EHDR_SIZE ≤ length bytes.now }
    requires table { HasSectionTable bytes.now }
    ensures { result ≡ find (is_symbols_at addr) (spec.section_headers bytes.now) }
{
    for i in 0..e_shnum(bytes) {
        let h = section_header(bytes, i);
        if h.kind == SHT_DYNSYM && h.addr == addr {
            return Some(h);
        }
    }
    None
}

/// The number of symbols by that section.
#[tactic(auto, unfolding(elf_model::specs::Sections::section_symbol_count))]
pub fn section_symbol_count(bytes: &[u8], addr: u32) -> Option<u32>
    requires small { length bytes.now < 2 ^ 32 }
    requires long { EHDR_SIZE ≤ length bytes.now }
    requires table { HasSectionTable bytes.now }
    ensures { result ≡ spec.section_symbol_count bytes.now addr }
{
    match symbol_section(bytes, addr) {
        None => None,
        Some(h) => Some(h.size / SYM_SIZE),
    }
}
