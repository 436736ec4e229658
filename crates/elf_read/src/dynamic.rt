//! The dynamic section and its entries.

ghost use Rattle.std.specs.Prelude.{◌≡◌, ◌≤◌, ◌<◌, ◌^◌, ◌+◌, ◌*◌, ℕ, [], ◌∷◌, length, All, IfOk, IfSome, is_none, unwrap_or, option_map};
ghost use Rattle.std.specs.Option.{option_copied};
ghost use Rattle.elf_model.specs.declared.refusal.ElfKind.TheVariants as kinds;
ghost use Rattle.elf_model.specs.Test.{refuses};
ghost use Rattle.elf_model.specs.Header.{e_phoff, e_phnum};
ghost use Rattle.elf_model.specs.Segments.{InFile};
ghost use Rattle.elf_model.specs.Dynamic as spec;
ghost use Rattle.elf_read.specs.parts.HeaderTables.{HasProgramTable};
ghost use Rattle.elf_read.specs.parts.Passes.{Passes, Reads};

use crate::error::ReadErr;
use crate::fields::e_phnum;
use crate::held::{has_flag, held_at};
use crate::refusals::{refusal, refuse};
use crate::segments::{header_offset, program_header};
use elf_model::constants::{
    D_TAG, D_VAL, DF_TEXTREL, DT_FLAGS, DT_NULL, DT_PLTREL, DT_REL, DT_RELA, DT_RELENT, DT_SYMENT,
    DT_TEXTREL, DYN_SIZE, EHDR_SIZE, PHDR_SIZE, PT_DYNAMIC, REL_SIZE, SYM_SIZE,
};
use elf_model::{DynEntry, ElfKind, ProgramHeader};
use fd_base::{Memory, word_in};
use std::alloc::Global;

/// Which program header is the first of a dynamic section.
#[tactic(auto, unfolding(elf_model::specs::Dynamic::dynamic_header))]
pub fn dynamic_header(bytes: &[u8]) -> Option<u16>
    requires small { length bytes.now < 2 ^ 32 }
    requires long { EHDR_SIZE ≤ length bytes.now }
    requires table { HasProgramTable bytes.now }
    ensures place { result ≡ spec.dynamic_header bytes.now }
    ensures inside { IfSome result (λ i. i < e_phnum bytes.now) }
{
    for i in 0..e_phnum(bytes) {
        if program_header(bytes, i).kind == PT_DYNAMIC {
            return Some(i);
        }
    }
    None
}

#[tactic(auto, unfolding(elf_model::specs::Dynamic::entry_at))]
fn entry_at(bytes: &[u8], offset: usize) -> DynEntry
    requires inside { offset + DYN_SIZE ≤ length bytes.now }
    requires small { length bytes.now < 2 ^ 32 }
    ensures { result ≡ spec.entry_at bytes.now offset }
{
    DynEntry {
        offset: offset as u32,
        tag: word_in(bytes, offset + D_TAG),
        value: word_in(bytes, offset + D_VAL),
    }
}

/// The entries before the first NULL of those from an offset on.
#[tactic(auto, unfolding(elf_model::specs::Dynamic::before_null))]
fn before_null(
    alloc: Global,
    bytes: &[u8],
    start: usize,
    size: u32,
) -> Result<Option<Vec<DynEntry>>, Memory>
    requires inside { start + size ≤ length bytes.now }
    requires small { length bytes.now < 2 ^ 32 }
    ensures { IfOk result (λ o. option_map (λ v. v.items) o
        ≡ spec.before_null (spec.whole_entries bytes.now start size)) }
{
    let mut entries = Vec::new(alloc);
    for k in 0..size / DYN_SIZE {
        let entry = entry_at(bytes, start + (DYN_SIZE * k) as usize);
        if entry.tag == DT_NULL {
            return Ok(Some(entries));
        }
        entries.push(entry)?;
    }
    Ok(None)
}

/// The entries of the section that this header names. The header stands at an offset of the file.
#[tactic(auto, unfolding(elf_model::specs::Dynamic::entries_of))]
fn entries_of(
    alloc: Global,
    bytes: &[u8],
    loads: &[ProgramHeader],
    h: &ProgramHeader,
    offset: u32,
) -> Result<Vec<DynEntry>, ReadErr>
    requires small { length bytes.now < 2 ^ 32 }
    requires in_file { All (InFile (length bytes.now)) loads.now }
    ensures { Reads (λ v. v.items) result
        (refuses kinds.DynRange offset (is_none (spec.entries_of bytes.now loads.now h.now)) ∷ [])
        (unwrap_or (spec.entries_of bytes.now loads.now h.now) []) }
{
    let Some(start) = held_at(loads, h.vaddr, h.filesz) else {
        return Err(refusal(ElfKind::DynRange, offset));
    };
    match before_null(alloc, bytes, start, h.filesz)? {
        None => Err(refusal(ElfKind::DynRange, offset)),
        Some(entries) => Ok(entries),
    }
}

/// The entries of the dynamic section before its NULL, and none without such a section.
#[tactic(auto, unfolding(elf_model::specs::Dynamic::dynamic_range_tests, elf_model::specs::Dynamic::dynamic_entries))]
pub fn dynamic_entries(
    alloc: Global,
    bytes: &[u8],
    loads: &[ProgramHeader],
) -> Result<Vec<DynEntry>, ReadErr>
    requires small { length bytes.now < 2 ^ 32 }
    requires long { EHDR_SIZE ≤ length bytes.now }
    requires table { HasProgramTable bytes.now }
    requires in_file { All (InFile (length bytes.now)) loads.now }
    ensures { Reads (λ v. v.items) result (spec.dynamic_range_tests bytes.now loads.now)
        (spec.dynamic_entries bytes.now loads.now) }
{
    match dynamic_header(bytes) {
        None => Ok(Vec::new(alloc)),
        Some(i) => {
            let h = program_header(bytes, i);
            entries_of(alloc, bytes, loads, &h, header_offset(bytes, i))
        }
    }
}

/// Where a fault of the dynamic section as a whole is reported, which is this place without such a section.
pub fn dynamic_offset_or(bytes: &[u8], place: u32) -> u32
    requires small { length bytes.now < 2 ^ 32 }
    requires long { EHDR_SIZE ≤ length bytes.now }
    requires table { HasProgramTable bytes.now }
    ensures { result ≡ spec.dynamic_offset_or bytes.now place }
{
    match dynamic_header(bytes) {
        None => place,
        Some(i) => header_offset(bytes, i),
    }
}

#[tactic(auto, unfolding(elf_model::specs::Dynamic::entry_tests))]
fn check_entry(e: &DynEntry) -> Result<(), ReadErr>
    ensures { Passes result (spec.entry_tests e.now) }
{
    let is_rela = e.tag == DT_RELA || e.tag == DT_PLTREL && e.value != DT_REL;
    refuse(is_rela, ElfKind::Rela, e.offset)?;
    let is_textrel = e.tag == DT_TEXTREL || e.tag == DT_FLAGS && has_flag(e.value, DF_TEXTREL);
    refuse(is_textrel, ElfKind::TextRel, e.offset)?;
    let is_wrong_size = e.tag == DT_SYMENT && e.value != SYM_SIZE
        || e.tag == DT_RELENT && e.value != REL_SIZE;
    refuse(is_wrong_size, ElfKind::Table, e.offset)
}

/// The tests of each entry by itself.
#[tactic(auto, unfolding(elf_model::specs::Dynamic::all_entry_tests))]
pub fn check_entries(entries: &[DynEntry]) -> Result<(), ReadErr>
    ensures { Passes result (spec.all_entry_tests entries.now) }
{
    for e in entries {
        check_entry(e)?;
    }
    Ok(())
}

/// The first entry of a tag, which is the one that counts.
pub fn first_of(tag: u32, entries: &[DynEntry]) -> Option<&DynEntry>
    ensures { option_copied result ≡ spec.first_of tag entries.now }
{
    entries.iter().find(|e| e.tag == tag)
}

/// The value of the first entry of a tag.
pub fn value_of(tag: u32, entries: &[DynEntry]) -> Option<u32>
    ensures { result ≡ spec.value_of tag entries.now }
{
    match first_of(tag, entries) {
        None => None,
        Some(e) => Some(e.value),
    }
}
