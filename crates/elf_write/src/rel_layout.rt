//! Where the parts of a relocatable file stand.

ghost use Rattle.std.specs.Prelude.{◌≡◌, ◌+◌, ◌*◌, ◌^◌, ◌≤◌, ◌<◌, All, IfSome, length, filter};
ghost use Rattle.std.specs.List.{flat_map, sum_by};
ghost use Rattle.elf_model.specs.declared.constants.TheConstants.{EHDR_SIZE, MAX_ENTRIES};
ghost use Rattle.elf_model.specs.RelSound.{IsNameText};
ghost use Rattle.elf_write.specs.Strings.{name_bytes};
ghost use Rattle.elf_write.specs.RelFile as spec;
ghost use Rattle.elf_write.specs.parts.Sizes.{IsSmall, AreSmall, IsLayoutSmall};

use crate::rows::aligned;
use crate::strings::{TABLE_NAMES, name_size, symbol_strings_size};
use elf_model::constants::{EHDR_SIZE, REL_SIZE, SHDR_SIZE, SYM_SIZE};
use elf_model::{RelObject, RelSection};

/// Where the parts of a file stand, and the index of the table of symbols.
#[derive(Clone, Copy)]
pub struct RelLayout {
    /// The offset of the relocations.
    pub rels: u64,
    /// The offset of the symbols.
    pub symbols: u64,
    /// The offset of the strings of the symbols.
    pub strings: u64,
    /// The offset of the names of the sections.
    pub names: u64,
    /// The offset of the section headers.
    pub headers: u64,
    /// The index of the table of symbols. Those of its strings and of the names follow it.
    pub symtab: u32,
}

/// Where a section ends that would begin at an offset.
pub fn end_of(at: u64, section: &RelSection) -> u64
    requires small { IsSmall section.now }
    requires fits { at < 2 ^ 40 }
    ensures end { result ≡ spec.end_of at section.now }
    ensures near { result ≤ at + 2 ^ 23 }
{
    aligned(section.align, at) + section.filled.len() as u64
}

/// Where the last section ends.
fn end_of_all(sections: &[RelSection]) -> u64
    requires { AreSmall sections.now }
    ensures end { result ≡ spec.end_of_all EHDR_SIZE sections.now }
    ensures near { result < 2 ^ 39 }
{
    let mut at = u64::from(EHDR_SIZE);
    for section in sections {
        at = end_of(at, section);
    }
    at
}

/// How many relocations there are.
fn rel_count(sections: &[RelSection]) -> u64
    requires { AreSmall sections.now }
    ensures count { result ≡ sum_by (λ s. length s.rels) sections.now }
    ensures few { result ≤ 2 ^ 30 }
{
    let mut count = 0;
    for section in sections {
        count += section.rels.len() as u64;
    }
    count
}

/// Where the names of the sections end among their strings.
pub fn names_end(sections: &[RelSection]) -> u32
    requires { AreSmall sections.now }
    ensures size { result ≡ 1 + length (flat_map name_bytes (spec.names_of sections.now)) }
    ensures few { result ≤ 2 ^ 23 }
{
    let mut size = 1;
    for section in sections {
        size += name_size(&section.name);
    }
    size
}

/// Whether a section has relocations.
pub fn has_rels(section: &RelSection) -> bool
    ensures { result ≡ spec.has_rels section.now }
{
    section.rels.len() != 0
}

/// How many sections have relocations.
fn table_count(sections: &[RelSection]) -> u32
    requires { AreSmall sections.now }
    ensures count { result ≡ length (filter spec.has_rels sections.now) }
    ensures few { result ≤ length sections.now }
{
    sections.iter().filter(|s| has_rels(s)).count() as u32
}

/// Where the parts of the file stand.
#[tactic(auto, using(crate::proofs::Placed::section_strings_size))]
pub fn layout_of(object: &RelObject) -> RelLayout
    requires small { AreSmall object.now.sections }
    requires few { length object.now.symbols ≤ MAX_ENTRIES }
    requires named { All (λ s. IfSome s.name IsNameText) object.now.symbols }
    ensures layout { result ≡ spec.layout_of object.now }
    ensures small { IsLayoutSmall result }
{
    let sections = object.sections.as_slice();
    let symbols = object.symbols.as_slice();
    let rels_at = end_of_all(sections);
    let symbols_at = rels_at + u64::from(REL_SIZE) * rel_count(sections);
    let strings_at = symbols_at + u64::from(SYM_SIZE) * symbols.len() as u64;
    let names_at = strings_at + u64::from(symbol_strings_size(symbols));
    RelLayout {
        rels: rels_at,
        symbols: symbols_at,
        strings: strings_at,
        names: names_at,
        headers: names_at + u64::from(names_end(sections)) + TABLE_NAMES.len() as u64,
        symtab: 1 + sections.len() as u32 + table_count(sections),
    }
}

/// How many bytes the file has.
pub fn file_size(layout: &RelLayout) -> u64
    requires { IsLayoutSmall layout.now }
    ensures { result ≡ spec.size_of layout.now }
{
    layout.headers + u64::from(SHDR_SIZE) * (u64::from(layout.symtab) + 3)
}
