//! The symbols for dynamic linking.

ghost use Rattle.std.specs.Prelude.{◌≡◌, ◌≤◌, ◌<◌, ◌^◌, ◌+◌, ◌*◌, [], ◌∷◌, ℕ, List, length, All, IfOk};
ghost use Rattle.elf_model.specs.declared.refusal.ElfKind.TheVariants as kinds;
ghost use Rattle.elf_model.specs.Segments.{InFile};
ghost use Rattle.elf_model.specs.Symbols as spec;
ghost use Rattle.elf_read.specs.parts.Functions.{function_tests};
ghost use Rattle.elf_read.specs.parts.HeaderTables.{HasSectionTable};
ghost use Rattle.elf_read.specs.parts.Passes.{Passes, Reads};
ghost use Rattle.elf_read.specs.parts.Stages.{ReadsTableOf, ReadsSymbolTable};

use crate::dynamic::first_of;
use crate::error::ReadErr;
use crate::held::{held_at, is_executable_at};
use crate::refusals::{refusal, refuse};
use crate::sections::section_symbol_count;
use crate::strings::{name_of, string_at};
use elf_model::constants::{
    DT_HASH, DT_SYMTAB, EHDR_SIZE, HASH_NCHAIN, MAX_ENTRIES, SHN_ABS, SHN_COMMON, SHN_UNDEF,
    ST_INFO, ST_NAME, ST_OTHER, ST_SHNDX, ST_SIZE, ST_VALUE, STB_LOCAL, STT_FUNC, STT_NOTYPE,
    STT_TLS, STV_DEFAULT, SYM_SIZE,
};
use elf_model::{DynEntry, ElfKind, Place, ProgramHeader, Symbol, SymbolEntry, Symbols};
use fd_base::{half_in, word_in};
use std::alloc::Global;

/// Where the symbols stand in the file, and how many there are.
#[derive(Clone, Copy)]
pub struct SymbolTable {
    /// The offset of symbol 0 in the file.
    pub offset: usize,
    /// The number of symbols, symbol 0 included.
    pub count: u32,
}

/// The number that the hash table gives: its second word, of its chains.
#[tactic(auto, unfolding(elf_model::specs::Symbols::hash_symbol_count))]
fn hash_symbol_count(bytes: &[u8], loads: &[ProgramHeader], hash: &DynEntry) -> Option<u32>
    requires { All (InFile (length bytes.now)) loads.now }
    ensures { result ≡ spec.hash_symbol_count bytes.now loads.now hash.now }
{
    match held_at(loads, hash.value, 8) {
        None => None,
        Some(at) => Some(word_in(bytes, at + HASH_NCHAIN)),
    }
}

/// The number of symbols at a link address: by the hash table, or else by the section that has them.
#[tactic(auto, unfolding(elf_model::specs::Symbols::count_of))]
fn count_of(bytes: &[u8], loads: &[ProgramHeader], entries: &[DynEntry], addr: u32) -> Option<u32>
    requires small { length bytes.now < 2 ^ 32 }
    requires long { EHDR_SIZE ≤ length bytes.now }
    requires sections { HasSectionTable bytes.now }
    requires in_file { All (InFile (length bytes.now)) loads.now }
    ensures { result ≡ spec.count_of bytes.now loads.now entries.now addr }
{
    match first_of(DT_HASH, entries) {
        Some(hash) => hash_symbol_count(bytes, loads, hash),
        None => section_symbol_count(bytes, addr),
    }
}

/// The test of the hash table, as far as it is read.
#[tactic(auto, unfolding(elf_model::specs::Symbols::hash_tests))]
fn check_hash(loads: &[ProgramHeader], entries: &[DynEntry]) -> Result<(), ReadErr>
    ensures { (bytes : List ℕ) → Passes result (spec.hash_tests bytes loads.now entries.now) }
{
    match first_of(DT_HASH, entries) {
        None => Ok(()),
        Some(hash) => refuse(
            held_at(loads, hash.value, 8).is_none(),
            ElfKind::Table,
            hash.offset,
        ),
    }
}

/// The tests of the table of symbols that an entry names, and where it stands. Faults of the dynamic section as a
/// whole are reported at the offset `dynamic`.
#[tactic(auto, using(elf_model::proofs::Tests::passed_over, elf_model::proofs::Tests::fails_first), unfolding(elf_model::specs::Symbols::symbol_table_tests))]
fn symbol_table(
    bytes: &[u8],
    loads: &[ProgramHeader],
    entries: &[DynEntry],
    dynamic: u32,
    table: &DynEntry,
) -> Result<SymbolTable, ReadErr>
    requires small { length bytes.now < 2 ^ 32 }
    requires long { EHDR_SIZE ≤ length bytes.now }
    requires sections { HasSectionTable bytes.now }
    requires in_file { All (InFile (length bytes.now)) loads.now }
    ensures tests { ReadsTableOf bytes.now loads.now entries.now dynamic table.now result }
    ensures inside { IfOk result (λ t. t.offset + SYM_SIZE * t.count ≤ length bytes.now) }
{
    check_hash(loads, entries)?;
    let Some(count) = count_of(bytes, loads, entries, table.value) else {
        return Err(refusal(ElfKind::NoCount, dynamic));
    };
    refuse(MAX_ENTRIES < count as usize, ElfKind::TooMany, table.offset)?;
    let Some(offset) = held_at(loads, table.value, SYM_SIZE * count) else {
        return Err(refusal(ElfKind::Table, table.offset));
    };
    Ok(SymbolTable { offset, count })
}

/// The tests of the table of symbols, and where it stands. There are no symbols without one.
#[tactic(auto, unfolding(elf_model::specs::Symbols::count_tests, elf_model::specs::Symbols::symbol_count, elf_model::specs::Symbols::symbols_offset))]
pub fn read_symbol_table(
    bytes: &[u8],
    loads: &[ProgramHeader],
    entries: &[DynEntry],
    dynamic: u32,
) -> Result<SymbolTable, ReadErr>
    requires small { length bytes.now < 2 ^ 32 }
    requires long { EHDR_SIZE ≤ length bytes.now }
    requires sections { HasSectionTable bytes.now }
    requires in_file { All (InFile (length bytes.now)) loads.now }
    ensures tests { ReadsSymbolTable bytes.now loads.now entries.now dynamic result }
    ensures inside { IfOk result (λ t. t.offset + SYM_SIZE * t.count ≤ length bytes.now) }
{
    match first_of(DT_SYMTAB, entries) {
        None => Ok(SymbolTable {
            offset: 0,
            count: 0,
        }),
        Some(table) => symbol_table(bytes, loads, entries, dynamic, table),
    }
}

/// The symbol at an offset of the file.
#[tactic(auto, unfolding(elf_model::specs::Symbols::symbol_entry))]
pub fn symbol_entry(bytes: &[u8], offset: usize) -> SymbolEntry
    requires inside { offset + SYM_SIZE ≤ length bytes.now }
    requires small { length bytes.now < 2 ^ 32 }
    ensures { result ≡ spec.symbol_entry bytes.now offset }
{
    SymbolEntry {
        offset: offset as u32,
        name: word_in(bytes, offset + ST_NAME),
        value: word_in(bytes, offset + ST_VALUE),
        size: word_in(bytes, offset + ST_SIZE),
        info: bytes[offset + ST_INFO],
        other: bytes[offset + ST_OTHER],
        section: half_in(bytes, offset + ST_SHNDX),
    }
}

/// Whether the symbol is a function that this object defines.
pub fn is_defined_function(e: &SymbolEntry) -> bool
    ensures { result ≡ spec.is_defined_function e.now }
{
    e.info % 16 == STT_FUNC && e.section != SHN_UNDEF
}

/// Whether a function stands at a multiple of 4 in the memory of an executable segment.
#[tactic(auto, unfolding(elf_model::specs::Symbols::has_function_place))]
fn has_function_place(loads: &[ProgramHeader], e: &SymbolEntry) -> bool
    ensures { result ≡ spec.has_function_place loads.now e.now }
{
    e.section != SHN_ABS && e.value % 4 == 0 && is_executable_at(loads, e.value)
}

/// The tests of a function's place.
fn check_function(loads: &[ProgramHeader], e: &SymbolEntry) -> Result<(), ReadErr>
    ensures { Passes result (function_tests loads.now e.now) }
{
    if !is_defined_function(e) {
        return Ok(());
    }
    refuse(e.value % 2 == 1, ElfKind::Thumb, e.offset)?;
    refuse(
        !has_function_place(loads, e),
        ElfKind::FunctionPlace,
        e.offset,
    )
}

fn place_of(section: u16) -> Place
    ensures { result ≡ spec.place_of section }
{
    match section {
        SHN_UNDEF => Place::Undefined,
        SHN_ABS => Place::Absolute,
        _ => Place::Here,
    }
}

/// The tests of a symbol, and the symbol.
#[tactic(auto, unfolding(elf_model::specs::Symbols::symbol_tests, elf_model::specs::Symbols::symbol_of, elf_model::specs::Strings::name_at))]
fn read_symbol(
    alloc: Global,
    loads: &[ProgramHeader],
    strings: &[u8],
    e: &SymbolEntry,
) -> Result<Symbol, ReadErr>
    ensures { Reads (λ s. s) result (spec.symbol_tests loads.now strings.now e.now)
        (spec.symbol_of strings.now e.now) }
{
    let Some(text) = string_at(strings, e.name) else {
        return Err(refusal(ElfKind::NameRange, e.offset));
    };
    refuse(e.info % 16 == STT_TLS, ElfKind::Tls, e.offset)?;
    refuse(e.section == SHN_COMMON, ElfKind::Table, e.offset)?;
    check_function(loads, e)?;
    Ok(Symbol {
        name: name_of(alloc, text)?,
        value: e.value,
        size: e.size,
        binding: e.info / 16,
        kind: e.info % 16,
        visibility: e.other % 4,
        place: place_of(e.section),
    })
}

/// Symbol 0, whatever its bytes.
pub fn null_symbol() -> Symbol
    ensures { result ≡ spec.null_symbol }
{
    Symbol {
        name: None,
        value: 0,
        size: 0,
        binding: STB_LOCAL,
        kind: STT_NOTYPE,
        visibility: STV_DEFAULT,
        place: Place::Undefined,
    }
}

/// The tests of each symbol but the first, and all symbols.
#[tactic(auto, unfolding(elf_model::specs::Symbols::all_symbol_tests, elf_model::specs::Symbols::symbols_of))]
pub fn read_symbols(
    alloc: Global,
    bytes: &[u8],
    loads: &[ProgramHeader],
    strings: &[u8],
    table: &SymbolTable,
) -> Result<Symbols, ReadErr>
    requires small { length bytes.now < 2 ^ 32 }
    requires inside { table.now.offset + SYM_SIZE * table.now.count ≤ length bytes.now }
    ensures { Reads (λ s. s) result
        (spec.all_symbol_tests bytes.now loads.now strings.now table.now.offset table.now.count)
        (spec.symbols_of bytes.now strings.now table.now.offset table.now.count) }
{
    let mut symbols = Symbols::new(alloc);
    if table.count == 0 {
        return Ok(symbols);
    }
    symbols.push(null_symbol())?;
    for k in 0..table.count - 1 {
        let e = symbol_entry(bytes, table.offset + (SYM_SIZE * (k + 1)) as usize);
        symbols.push(read_symbol(alloc, loads, strings, &e)?)?;
    }
    Ok(symbols)
}
