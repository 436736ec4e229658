//! The symbols of a relocatable file.

ghost use Rattle.std.specs.Prelude.{◌≡◌, ◌≤◌, ◌<◌, ◌+◌, ◌*◌, [], ◌∷◌, ℕ, List, length, All, IfOk, IfSome, option_map, slice_get, None, true, if◌then◌else◌};
ghost use Rattle.elf_model.specs.declared.refusal.ElfKind.TheVariants.{Table};
ghost use Rattle.elf_model.specs.Test.{refuses, of_some};
ghost use Rattle.elf_model.specs.Header.{e_shnum};
ghost use Rattle.elf_model.specs.Sections.{section_offset};
ghost use Rattle.elf_model.specs.Strings as text;
ghost use Rattle.elf_model.specs.RelSymbols as spec;
ghost use Rattle.elf_read.specs.parts.Passes.{Passes, Reads};
ghost use Rattle.elf_read.specs.parts.Strings.{IsString};
ghost use Rattle.elf_read_rel.specs.parts.Headers.{HasHeaders};
ghost use Rattle.elf_read_rel.specs.parts.Kept.{numbers_of};
ghost use Rattle.elf_read_rel.specs.parts.Symbols.{HasSymbols, is_thumb};

use crate::kept::number_at;
use elf_model::constants::{
    MAX_ENTRIES, SHN_ABS, SHN_COMMON, SHN_UNDEF, SHT_SYMTAB, STB_LOCAL, STB_WEAK, STT_TLS, SYM_SIZE,
};
use elf_model::{ElfKind, Place, SectionHeader, Symbol, SymbolEntry, Symbols};
use elf_read::{
    ReadErr, e_shnum, is_defined_function, name_of, null_symbol, passes_end, refusal, refuse,
    section_header, section_offset, string_at, symbol_entry,
};
use fd_base::Memory;
use std::alloc::Global;

/// Which sections are tables of symbols.
#[tactic(auto, unfolding(elf_model::specs::RelSymbols::symbol_sections))]
fn symbol_sections(alloc: Global, bytes: &[u8]) -> Result<Vec<u16>, Memory>
    requires { HasHeaders bytes.now }
    ensures sections { IfOk result (λ v. v.items ≡ spec.symbol_sections bytes.now) }
    ensures there { IfOk result (λ v. All (λ i. i < e_shnum bytes.now) v.items) }
{
    let mut sections = Vec::new(alloc);
    for i in 0..e_shnum(bytes) {
        if section_header(bytes, i).kind == SHT_SYMTAB {
            sections.push(i)?;
        }
    }
    Ok(sections)
}

/// Whether the section of the strings is there and lies in the file.
#[tactic(auto, unfolding(elf_model::specs::RelSymbols::has_strings))]
fn has_strings(bytes: &[u8], h: &SectionHeader) -> bool
    requires { HasHeaders bytes.now }
    ensures { result ≡ spec.has_strings bytes.now h.now }
{
    if u32::from(e_shnum(bytes)) <= h.link {
        return false;
    }
    let strings = section_header(bytes, h.link as u16);
    !passes_end(bytes, strings.offset, strings.size as usize)
}

/// The tests of a table of symbols.
#[tactic(auto, unfolding(elf_model::specs::RelSymbols::symbol_section_tests, elf_model::specs::RelSymbols::has_strings))]
fn check_symbol_section(bytes: &[u8], i: u16) -> Result<(), ReadErr>
    requires headers { HasHeaders bytes.now }
    requires there { i < e_shnum bytes.now }
    ensures { Passes result (spec.symbol_section_tests bytes.now i) }
{
    let h = section_header(bytes, i);
    let at = section_offset(bytes, i);
    let is_wrong = passes_end(bytes, h.offset, h.size as usize)
        || !has_strings(bytes, &h)
        || h.size % SYM_SIZE != 0;
    refuse(is_wrong, ElfKind::Table, at)?;
    let count = (h.size / SYM_SIZE) as usize;
    refuse(MAX_ENTRIES < count, ElfKind::TooMany, at)
}

/// The same, where there is a table.
fn check_first(bytes: &[u8], first: Option<u16>) -> Result<(), ReadErr>
    requires headers { HasHeaders bytes.now }
    requires there { IfSome first (λ i. i < e_shnum bytes.now) }
    ensures { Passes result (of_some first (spec.symbol_section_tests bytes.now)) }
{
    match first {
        None => Ok(()),
        Some(i) => check_symbol_section(bytes, i),
    }
}

/// The test that there is no second table of symbols.
fn check_second(bytes: &[u8], second: Option<u16>) -> Result<(), ReadErr>
    requires headers { HasHeaders bytes.now }
    requires there { IfSome second (λ i. i < e_shnum bytes.now) }
    ensures { Passes result (of_some second (λ i. refuses Table (section_offset bytes.now i) true ∷ [])) }
{
    match second {
        None => Ok(()),
        Some(i) => Err(refusal(ElfKind::Table, section_offset(bytes, i))),
    }
}

fn nth(sections: &[u16], k: usize) -> Option<u16>
    ensures nth { result ≡ slice_get sections.now k }
    ensures below { (n : ℕ) → All (λ i. i < n) sections.now → IfSome result (λ i. i < n) }
{
    if k < sections.len() {
        Some(sections[k])
    } else {
        None
    }
}

/// The tests of the tables of symbols, and which section is the one that is read.
#[tactic(auto, using(elf_model::proofs::Tests::passed_over, elf_model::proofs::Tests::fails_first), unfolding(elf_model::specs::RelSymbols::symbol_table_tests))]
pub fn read_symbol_section(alloc: Global, bytes: &[u8]) -> Result<Option<u16>, ReadErr>
    requires { HasHeaders bytes.now }
    ensures tests { Reads (λ o. o) result (spec.symbol_table_tests bytes.now) (spec.symbol_section bytes.now) }
    ensures inside { IfOk result (λ o. IfSome o (HasSymbols bytes.now)) }
{
    let sections = symbol_sections(alloc, bytes)?;
    let first = nth(&sections, 0);
    check_first(bytes, first)?;
    check_second(bytes, nth(&sections, 1))?;
    Ok(first)
}

/// How many symbols there are: none without a table.
#[tactic(auto, unfolding(elf_model::specs::RelSymbols::symbol_count))]
pub fn symbol_count(bytes: &[u8], section: Option<u16>) -> u32
    requires headers { HasHeaders bytes.now }
    requires inside { IfSome section (HasSymbols bytes.now) }
    requires is_section { section ≡ spec.symbol_section bytes.now }
    ensures count { result ≡ spec.symbol_count bytes.now }
    ensures few { result ≤ MAX_ENTRIES }
{
    match section {
        None => 0,
        Some(i) => section_header(bytes, i).size / SYM_SIZE,
    }
}

/// Where they stand in the file.
#[tactic(auto, unfolding(elf_model::specs::RelSymbols::symbols_offset))]
fn symbols_offset(bytes: &[u8], section: Option<u16>) -> u32
    requires headers { HasHeaders bytes.now }
    requires inside { IfSome section (HasSymbols bytes.now) }
    requires is_section { section ≡ spec.symbol_section bytes.now }
    ensures offset { result ≡ spec.symbols_offset bytes.now }
    ensures inside { result + SYM_SIZE * spec.symbol_count bytes.now ≤ length bytes.now }
{
    match section {
        None => 0,
        Some(i) => section_header(bytes, i).offset,
    }
}

/// The bytes of a section, which lie in the file.
fn bytes_of<'a>(bytes: &'a [u8], h: &SectionHeader) -> &'a [u8]
    requires { h.now.offset + h.now.size ≤ length bytes.now }
    ensures { result.now ≡ spec.bytes_of bytes.now h.now }
{
    let start = h.offset as usize;
    &bytes[start..start + h.size as usize]
}

/// The strings of the symbols' names.
#[tactic(auto, unfolding(elf_model::specs::RelSymbols::strings))]
fn strings(bytes: &[u8], section: Option<u16>) -> &[u8]
    requires headers { HasHeaders bytes.now }
    requires inside { IfSome section (HasSymbols bytes.now) }
    requires is_section { section ≡ spec.symbol_section bytes.now }
    ensures { result.now ≡ spec.strings bytes.now }
{
    match section {
        None => &[],
        Some(i) => {
            let link = section_header(bytes, i).link as u16;
            bytes_of(bytes, &section_header(bytes, link))
        }
    }
}

/// The text of a symbol's name, where it may have that.
#[tactic(auto, unfolding(elf_model::specs::RelSymbols::has_name, elf_model::specs::Strings::name_at))]
fn name_text<'a>(strings: &'a [u8], e: &SymbolEntry) -> Option<&'a [u8]>
    ensures text { option_map (λ t. t.now) result
        ≡ (if spec.has_name strings.now e.now then text.string_at strings.now (e.now).name else None) }
    ensures string { IfSome result (λ t. IsString t.now) }
{
    let text = string_at(strings, e.name)?;
    if e.info / 16 != STB_LOCAL && text.len() == 0 {
        return None;
    }
    Some(text)
}

#[tactic(auto, unfolding(elf_model::specs::RelSymbols::has_place))]
fn has_place(bytes: &[u8], e: &SymbolEntry) -> bool
    requires { HasHeaders bytes.now }
    ensures { result ≡ spec.has_place bytes.now e.now }
{
    e.section < e_shnum(bytes) || e.section == SHN_ABS || e.section == SHN_COMMON
}

/// Whether the symbol is a Thumb function.
fn is_thumb(e: &SymbolEntry) -> bool
    ensures { result ≡ is_thumb e.now }
{
    is_defined_function(e) && e.section != SHN_COMMON && e.value % 2 == 1
}

/// Where a symbol is defined, by the index of its section.
#[tactic(auto, unfolding(elf_model::specs::RelSymbols::place_of))]
fn place_of(numbers: &[Option<u32>], section: u16) -> Place
    ensures { (bytes : List ℕ) → numbers.now ≡ numbers_of bytes → result ≡ spec.place_of bytes section }
{
    if section == SHN_UNDEF {
        return Place::Undefined;
    }
    if section == SHN_ABS {
        return Place::Absolute;
    }
    if section == SHN_COMMON {
        return Place::Common;
    }
    match number_at(numbers, u32::from(section)) {
        Some(number) => Place::Section(number),
        None => Place::Dropped,
    }
}

/// The tests of a symbol, and the symbol.
#[tactic(auto, unfolding(elf_model::specs::RelSymbols::symbol_tests, elf_model::specs::Symbols::symbol_of, elf_model::specs::Strings::name_at))]
fn read_symbol(
    alloc: Global,
    bytes: &[u8],
    strings: &[u8],
    numbers: &[Option<u32>],
    e: &SymbolEntry,
) -> Result<Symbol, ReadErr>
    requires headers { HasHeaders bytes.now }
    requires are_numbers { numbers.now ≡ numbers_of bytes.now }
    requires are_strings { strings.now ≡ spec.strings bytes.now }
    ensures { Reads (λ s. s) result (spec.symbol_tests bytes.now (spec.strings bytes.now) e.now) (spec.rel_symbol_of bytes.now e.now) }
{
    let Some(text) = name_text(strings, e) else {
        return Err(refusal(ElfKind::NameRange, e.offset));
    };
    refuse(e.info % 16 == STT_TLS, ElfKind::Tls, e.offset)?;
    let is_known = e.info / 16 <= STB_WEAK && has_place(bytes, e);
    refuse(!is_known, ElfKind::Table, e.offset)?;
    refuse(is_thumb(e), ElfKind::Thumb, e.offset)?;
    Ok(Symbol {
        name: name_of(alloc, text)?,
        value: e.value,
        size: e.size,
        binding: e.info / 16,
        kind: e.info % 16,
        visibility: e.other % 4,
        place: place_of(numbers, e.section),
    })
}

/// The tests of each symbol but the first, and all symbols.
#[tactic(auto, unfolding(elf_model::specs::RelSymbols::all_symbol_tests, elf_model::specs::RelSymbols::symbols))]
pub fn read_symbols(
    alloc: Global,
    bytes: &[u8],
    numbers: &[Option<u32>],
    section: Option<u16>,
) -> Result<Symbols, ReadErr>
    requires headers { HasHeaders bytes.now }
    requires are_numbers { numbers.now ≡ numbers_of bytes.now }
    requires inside { IfSome section (HasSymbols bytes.now) }
    requires is_section { section ≡ spec.symbol_section bytes.now }
    ensures { Reads (λ s. s) result (spec.all_symbol_tests bytes.now) (spec.symbols bytes.now) }
{
    let mut symbols = Symbols::new(alloc);
    let count = symbol_count(bytes, section);
    if count == 0 {
        return Ok(symbols);
    }
    let strings = strings(bytes, section);
    let first = symbols_offset(bytes, section);
    symbols.push(null_symbol())?;
    for k in 0..count - 1 {
        let e = symbol_entry(bytes, (first + SYM_SIZE * (k + 1)) as usize);
        symbols.push(read_symbol(alloc, bytes, strings, numbers, &e)?)?;
    }
    Ok(symbols)
}
