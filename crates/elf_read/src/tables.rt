//! The tables of relocations and their entries.

ghost use Rattle.std.specs.Prelude.{◌≡◌, ◌≤◌, ◌<◌, ◌^◌, ◌+◌, ◌/◌, ℕ, length, All, IfOk, IfSome, Some, unwrap_or};
ghost use Rattle.elf_model.specs.Segments.{InFile, held_at};
ghost use Rattle.elf_model.specs.Relocations as spec;
ghost use Rattle.elf_read.specs.parts.Tables as tables;
ghost use Rattle.elf_read.specs.parts.Passes.{Reads};

use crate::dynamic::{first_of, value_of};
use crate::error::ReadErr;
use crate::held::held_at;
use crate::refusals::{refusal, refuse};
use elf_model::constants::{
    DT_JMPREL, DT_PLTRELSZ, DT_REL, DT_RELSZ, MAX_ENTRIES, R_INFO, R_OFFSET, REL_SIZE,
};
use elf_model::{DynEntry, ElfKind, Extent, ProgramHeader, RelEntry, RelTable};
use fd_base::{Memory, word_in};
use std::alloc::Global;

/// Where a table of relocations stands.
#[derive(Clone, Copy)]
pub struct RelRange {
    /// The link address of the first entry.
    pub addr: u32,
    /// The size of the table in bytes.
    pub size: u32,
    /// The offset of the first entry in the file.
    pub offset: usize,
}

/// Where a table of whole entries at a link address stands in the file.
#[tactic(auto, unfolding(elf_model::specs::Relocations::rel_table_at))]
fn rel_table_at(loads: &[ProgramHeader], addr: u32, size: Option<u32>) -> Option<usize>
    ensures value { result ≡ spec.rel_table_at loads.now addr size }
    ensures held { IfSome result (λ at. held_at loads.now addr (unwrap_or size 0) ≡ Some at) }
    ensures in_file { (len : ℕ) → All (InFile len) loads.now
        → IfSome result (λ at. at + unwrap_or size 0 ≤ len) }
{
    match size {
        None => None,
        Some(n) => {
            if n % REL_SIZE == 0 {
                held_at(loads, addr, n)
            } else {
                None
            }
        }
    }
}

/// The tests of the table of two tags, and where it stands.
#[tactic(auto, unfolding(elf_model::specs::Relocations::rel_table_tests, crate::specs::parts::Tables::range_of))]
fn range_of(
    loads: &[ProgramHeader],
    entries: &[DynEntry],
    table_tag: u32,
    size_tag: u32,
) -> Result<Option<RelRange>, ReadErr>
    ensures tests { Reads (λ r. r) result
        (spec.rel_table_tests loads.now entries.now table_tag size_tag)
        (tables.range_of loads.now entries.now table_tag size_tag) }
    ensures in_file { (len : ℕ) → All (InFile len) loads.now
        → IfOk result (λ r. IfSome r (λ r. r.offset + r.size ≤ len)) }
{
    let Some(e) = first_of(table_tag, entries) else {
        return Ok(None);
    };
    let size = value_of(size_tag, entries);
    let Some(offset) = rel_table_at(loads, e.value, size) else {
        return Err(refusal(ElfKind::Table, e.offset));
    };
    let size = size.unwrap_or(0);
    let count = (size / REL_SIZE) as usize;
    refuse(MAX_ENTRIES < count, ElfKind::TooMany, e.offset)?;
    Ok(Some(RelRange {
        addr: e.value,
        size,
        offset,
    }))
}

/// The entry at an offset of the file.
#[tactic(auto, unfolding(elf_model::specs::Relocations::rel_entry))]
pub fn rel_entry(bytes: &[u8], table: RelTable, offset: usize) -> RelEntry
    requires inside { offset + REL_SIZE ≤ length bytes.now }
    requires small { length bytes.now < 2 ^ 32 }
    ensures { result ≡ spec.rel_entry bytes.now table offset }
{
    let info = word_in(bytes, offset + R_INFO);
    RelEntry {
        table,
        offset: offset as u32,
        site: word_in(bytes, offset + R_OFFSET),
        kind: (info % 256) as u8,
        symbol: info / 256,
    }
}

/// The link addresses of the slots' relocations.
#[tactic(auto, unfolding(crate::specs::parts::Tables::slot_range))]
fn slot_range(entries: &[DynEntry]) -> Option<Extent>
    ensures { result ≡ tables.slot_range entries.now }
{
    match value_of(DT_JMPREL, entries) {
        None => None,
        Some(addr) => Some(Extent {
            addr,
            size: value_of(DT_PLTRELSZ, entries).unwrap_or(0),
        }),
    }
}

/// Whether the entry at a link address lies inside a range.
fn is_inside(range: Option<Extent>, addr: u64) -> bool
    requires { addr < 2 ^ 40 }
    ensures { result ≡ tables.is_inside range addr }
{
    match range {
        None => false,
        Some(r) => {
            let first = u64::from(r.addr);
            first <= addr && addr + u64::from(REL_SIZE) <= first + u64::from(r.size)
        }
    }
}

/// The entries of a table, without those that lie inside the range `left_out`.
fn entries_of(
    alloc: Global,
    bytes: &[u8],
    table: RelTable,
    left_out: Option<Extent>,
    range: &RelRange,
) -> Result<Vec<RelEntry>, Memory>
    requires inside { range.now.offset + range.now.size ≤ length bytes.now }
    requires small { length bytes.now < 2 ^ 32 }
    ensures { IfOk result (λ v. v.items ≡ tables.entries_of bytes.now table left_out range.now) }
{
    let mut entries = Vec::new(alloc);
    for k in 0..range.size / REL_SIZE {
        let at = REL_SIZE * k;
        if !is_inside(left_out, u64::from(range.addr) + u64::from(at)) {
            entries.push(rel_entry(bytes, table, range.offset + at as usize))?;
        }
    }
    Ok(entries)
}

/// Where the tables of relocations of a file are looked for.
#[derive(Clone, Copy)]
pub struct RelTables<'a> {
    pub bytes: &'a [u8],
    /// The headers of the segments to be loaded.
    pub loads: &'a [ProgramHeader],
    /// The entries of the dynamic section.
    pub entries: &'a [DynEntry],
}

impl<'a> RelTables<'a> {
    /// The entries of DT_REL that are its own: those inside the table of the slots are left out.
    #[tactic(auto, using(crate::proofs::Ranges::own_entries))]
    pub fn own(self, alloc: Global) -> Result<Vec<RelEntry>, ReadErr>
        requires small { length self.bytes.now < 2 ^ 32 }
        requires in_file { All (InFile (length self.bytes.now)) self.loads.now }
        ensures { Reads (λ v. v.items) result (spec.rel_table_tests self.entry.loads.now self.entry.entries.now DT_REL DT_RELSZ)
            (spec.rel_entries self.entry.bytes.now self.entry.loads.now self.entry.entries.now) }
    {
        match range_of(self.loads, self.entries, DT_REL, DT_RELSZ)? {
            None => Ok(Vec::new(alloc)),
            Some(range) => {
                let slots = slot_range(self.entries);
                Ok(entries_of(alloc, self.bytes, RelTable::Rel, slots, &range)?)
            }
        }
    }

    /// The entries of DT_JMPREL, one for each slot.
    #[tactic(auto, using(crate::proofs::Ranges::slot_entries))]
    pub fn slots(self, alloc: Global) -> Result<Vec<RelEntry>, ReadErr>
        requires small { length self.bytes.now < 2 ^ 32 }
        requires in_file { All (InFile (length self.bytes.now)) self.loads.now }
        ensures { Reads (λ v. v.items) result (spec.rel_table_tests self.entry.loads.now self.entry.entries.now DT_JMPREL DT_PLTRELSZ)
            (spec.jmprel_entries self.entry.bytes.now self.entry.loads.now self.entry.entries.now) }
    {
        match range_of(self.loads, self.entries, DT_JMPREL, DT_PLTRELSZ)? {
            None => Ok(Vec::new(alloc)),
            Some(range) => Ok(entries_of(alloc, self.bytes, RelTable::JmpRel, None, &range)?),
        }
    }
}
