//! The reader: each stage makes the next tests of the format and hands on what it read.

ghost use Rattle.std.specs.Prelude.{◌≡◌, ◌<◌, ◌^◌, ◌-◌, ℕ, length, None, Some, Ok, Err, IfOk, true};
ghost use Rattle.elf_model.specs.declared.relocatable.RelObject.{RelObject};
ghost use Rattle.elf_model.specs.declared.refusal.ElfRefusal.{ElfRefusal};
ghost use Rattle.elf_model.specs.Header.{e_shnum};
ghost use Rattle.elf_model.specs.Sections.{section_header, section_names};
ghost use Rattle.elf_model.specs.Test.{first_failing};
ghost use Rattle.elf_model.specs.RelSections.{all_section_tests, is_kept, section_bytes};
ghost use Rattle.elf_model.specs.RelEntries.{rels_at};
ghost use Rattle.elf_model.specs.Relocatable as spec;
ghost use Rattle.elf_model.specs.Relocatable.{IsRelocatable};
ghost use Rattle.elf_model.specs.RelSound.{IsRelSound};
ghost use Rattle.elf_read.specs.declared.error.ReadErr.TheVariants.{Refused};
ghost use Rattle.elf_read.specs.parts.Passes.{Reads};
ghost use Rattle.elf_read.specs.parts.Reads.{IsAnswer};
ghost use Rattle.elf_read_rel.specs.parts.Answers.{IsReadAs};
ghost use Rattle.elf_read_rel.specs.parts.Headers.{HasHeaders, is_in_file};
ghost use Rattle.elf_read_rel.specs.parts.Lists.{HasRels};

use crate::header::check_header;
use crate::kept::{is_kept, is_nobits, read_kept};
use crate::relocations::read_relocations;
use crate::symbols::{read_symbol_section, read_symbols, symbol_count};
use elf_model::{RelObject, RelSection, RelSections, Rels, SectionHeader};
use elf_read::{ReadErr, e_shnum, name_at, section_header, section_names};
use fd_base::{Bytes, Memory};
use std::alloc::Global;
use std::mem;

/// The bytes of a section that passed its tests.
#[tactic(auto, unfolding(elf_model::specs::RelSections::section_bytes))]
fn section_bytes(alloc: Global, bytes: &[u8], h: &SectionHeader) -> Result<Bytes, Memory>
    requires { is_in_file bytes.now h.now ≡ true }
    ensures { IfOk result (λ b. b ≡ section_bytes bytes.now h.now) }
{
    if is_nobits(h) {
        return Ok(Bytes::new(alloc));
    }
    let start = h.offset as usize;
    Bytes::from_slice(alloc, &bytes[start..start + h.size as usize])
}

/// The section of a header, with its relocations.
fn section_of(
    alloc: Global,
    bytes: &[u8],
    i: u16,
    h: &SectionHeader,
    rels: Rels,
) -> Result<RelSection, Memory>
    requires headers { HasHeaders bytes.now }
    requires is_header { h.now ≡ section_header bytes.now i }
    requires in_file { is_in_file bytes.now h.now ≡ true }
    requires are_rels { rels ≡ rels_at bytes.now i }
    ensures { IfOk result (λ s. s ≡ spec.section_of bytes.now i) }
{
    Ok(RelSection {
        name: name_at(alloc, section_names(bytes), h.name)?,
        kind: h.kind,
        flags: h.flags,
        align: h.align,
        size: h.size,
        filled: section_bytes(alloc, bytes, h)?,
        rels,
    })
}

/// The kept sections, with the relocations of each.
#[tactic(auto, unfolding(elf_model::specs::Relocatable::sections))]
fn sections_of(alloc: Global, bytes: &[u8], lists: Vec<Rels>) -> Result<RelSections, Memory>
    requires headers { HasHeaders bytes.now }
    requires passed { first_failing (all_section_tests bytes.now) ≡ None }
    requires rels { HasRels bytes.now lists.items }
    ensures { IfOk result (λ s. s ≡ spec.sections bytes.now) }
{
    let mut sections = RelSections::new(alloc);
    let mut lists = lists;
    for i in 0..e_shnum(bytes) {
        let h = section_header(bytes, i);
        if is_kept(&h) {
            let rels = mem::replace(&mut lists[i as usize], Rels::new(alloc));
            sections.push(section_of(alloc, bytes, i, &h, rels)?)?;
        }
    }
    Ok(sections)
}

/// The relocatable file that the bytes are.
#[tactic(auto, using(elf_model::proofs::Tests::passed_over, elf_model::proofs::Tests::fails_first), unfolding(elf_model::specs::Relocatable::relocatable_tests, elf_model::specs::Relocatable::relocatable_of))]
fn object(alloc: Global, bytes: &[u8]) -> Result<RelObject, ReadErr>
    requires { length bytes.now < 2 ^ 32 }
    ensures { Reads (λ r. r) result (spec.relocatable_tests bytes.now) (spec.relocatable_of bytes.now) }
{
    check_header(bytes)?;
    let numbers = read_kept(alloc, bytes)?;
    let section = read_symbol_section(alloc, bytes)?;
    let symbols = read_symbols(alloc, bytes, &numbers, section)?;
    let count = symbol_count(bytes, section);
    let lists = read_relocations(alloc, bytes, &numbers, count)?;
    let sections = sections_of(alloc, bytes, lists)?;
    Ok(RelObject { sections, symbols })
}

/// Reads a relocatable file from its bytes. `Refused` comes exactly where the bytes are none, with the first test that
/// they fail.
pub fn read_rel_object(alloc: Global, bytes: &[u8]) -> Result<RelObject, ReadErr>
    requires { length bytes.now < 2 ^ 32 - 1 }
    ensures read { IsReadAs bytes.now result }

    // Both answers are the only ones, unless memory is wanted.
    ensures only { (r : RelObject) → IsRelocatable bytes.now r → IsAnswer result (Ok r) }
    ensures first { (r : ElfRefusal) → spec.relocatable_refusal_of bytes.now ≡ Some r
        → IsAnswer result (Err (Refused r)) }

    ensures sound { IfOk result IsRelSound }
{
    object(alloc, bytes)
}
