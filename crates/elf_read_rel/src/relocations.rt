//! The relocations of kept sections. One pass over the headers puts those of each table to the section that it names.

ghost use Rattle.std.specs.Prelude.{◌≡◌, ◌≤◌, ◌≢◌, ◌<◌, ◌+◌, ◌*◌, ◌++◌, ◌^◌, ℕ, List, length, filter, IfOk, OnOk};
ghost use Rattle.std.specs.List.{sum_by};
ghost use Rattle.elf_model.specs.Test.{each_below, only_where};
ghost use Rattle.elf_model.specs.Header.{e_shnum};
ghost use Rattle.elf_model.specs.Sections.{section_header};
ghost use Rattle.elf_model.specs.Relocations.{rel_of};
ghost use Rattle.elf_model.specs.RelSections.{section_headers_below};
ghost use Rattle.elf_model.specs.RelSymbols as symbol;
ghost use Rattle.elf_model.specs.RelEntries as spec;
ghost use Rattle.elf_read.specs.parts.Passes.{Passes, Reads, Gives};
ghost use Rattle.elf_read_rel.specs.parts.Headers.{HasHeaders};
ghost use Rattle.elf_read_rel.specs.parts.Kept.{numbers_of};
ghost use Rattle.elf_read_rel.specs.parts.Lists.{HasLists, HasRels, table_tests};

use crate::kept::{is_nobits, number_at};
use elf_model::constants::{MAX_ENTRIES, MAX_SECTIONS_ENTRIES, REL_SIZE, SHT_REL, SHT_RELA};
use elf_model::{ElfKind, Rel, RelTable, Rels, SectionHeader};
use elf_read::{ReadErr, e_shnum, passes_end, refuse, rel_entry, section_header, section_offset};
use fd_base::Memory;
use std::alloc::Global;

/// Whether a section has the relocations of a kept section.
#[tactic(auto, unfolding(elf_model::specs::RelEntries::relocates))]
fn relocates(numbers: &[Option<u32>], h: &SectionHeader) -> bool
    ensures { (bytes : List ℕ) → numbers.now ≡ numbers_of bytes → result ≡ spec.relocates bytes h.now }
{
    (h.kind == SHT_REL || h.kind == SHT_RELA) && number_at(numbers, h.info).is_some()
}

/// The tests of a table before those of its entries, where the tables before it have so many entries. Gives the
/// entries of all.
fn check_table(bytes: &[u8], i: u16, h: &SectionHeader, so_far: u32) -> Result<u32, ReadErr>
    requires headers { HasHeaders bytes.now }
    requires there { i < e_shnum bytes.now }
    requires is_header { h.now ≡ section_header bytes.now i }
    requires is_sum { so_far ≡ sum_by spec.entry_count (filter (spec.relocates bytes.now) (section_headers_below bytes.now i)) }
    requires few { so_far ≤ MAX_SECTIONS_ENTRIES }
    ensures tests { Gives result (table_tests bytes.now i)
        (λ all. (all ≡ spec.entries_so_far bytes.now i) × (all ≤ MAX_SECTIONS_ENTRIES)) }
    ensures inside { OnOk result ((h.now).offset + (h.now).size ≤ length bytes.now) }
    ensures is_rel { OnOk result ((h.now).kind ≢ SHT_RELA) }
{
    let at = section_offset(bytes, i);
    refuse(h.kind == SHT_RELA, ElfKind::Rela, at)?;
    let is_wrong = passes_end(bytes, h.offset, h.size as usize) || h.size % REL_SIZE != 0;
    refuse(is_wrong, ElfKind::Table, at)?;
    let count = h.size / REL_SIZE;
    let all = so_far + count;
    let is_many = MAX_ENTRIES < count as usize || MAX_SECTIONS_ENTRIES < all;
    refuse(is_many, ElfKind::TooMany, at)?;
    Ok(all)
}

/// The tests of an entry, and the relocation.
#[tactic(auto, unfolding(elf_model::specs::RelEntries::entry_tests))]
fn read_entry(
    bytes: &[u8],
    h: &SectionHeader,
    relocated: &SectionHeader,
    symbol_count: u32,
    k: u32,
) -> Result<Rel, ReadErr>
    requires small { length bytes.now < 2 ^ 32 }
    requires inside { (h.now).offset + REL_SIZE * k + REL_SIZE ≤ length bytes.now }
    requires is_relocated { relocated.now ≡ section_header bytes.now (h.now).info }
    requires is_count { symbol_count ≡ symbol.symbol_count bytes.now }
    ensures { Reads (λ r. r) result (spec.entry_tests bytes.now h.now k) (rel_of (spec.entry_of bytes.now h.now k)) }
{
    let e = rel_entry(bytes, RelTable::Rel, (h.offset + REL_SIZE * k) as usize);
    let is_unknown = e.symbol != 0 && symbol_count <= e.symbol;
    refuse(is_unknown, ElfKind::Table, e.offset)?;
    let end = u64::from(e.site) + 4;
    let is_outside = is_nobits(relocated) || u64::from(relocated.size) < end;
    refuse(is_outside, ElfKind::SiteRange, e.offset)?;
    Ok(Rel {
        site: e.site,
        kind: e.kind,
        symbol: e.symbol,
    })
}

/// The tests of the entries of a table, whose relocations are put behind others.
fn read_entries(
    bytes: &[u8],
    h: &SectionHeader,
    relocated: &SectionHeader,
    symbol_count: u32,
    rels: &mut Rels,
) -> Result<(), ReadErr>
    requires small { length bytes.now < 2 ^ 32 }
    requires inside { (h.now).offset + (h.now).size ≤ length bytes.now }
    requires is_relocated { relocated.now ≡ section_header bytes.now (h.now).info }
    requires is_count { symbol_count ≡ symbol.symbol_count bytes.now }
    ensures tests { Passes result (each_below (spec.entry_count h.now) (spec.entry_tests bytes.now h.now)) }
    ensures rels { OnOk result (rels.new ≡ rels.old ++ spec.rels_in bytes.now h.now) }
{
    for k in 0..h.size / REL_SIZE {
        rels.push(read_entry(bytes, h, relocated, symbol_count, k)?)?;
    }
    Ok(())
}

/// The relocations that the first headers have.
#[derive(Drop)]
pub struct Lists {
    /// Those of each section, by the index of its header. A section that isn't kept has none.
    rels: Vec<Rels>,
    /// How many entries the tables have together.
    count: u32,
}

impl Lists {
    /// A list without relocations for each header.
    fn new(alloc: Global, bytes: &[u8]) -> Result<Self, Memory>
        requires { HasHeaders bytes.now }
        ensures { IfOk result (λ lists. HasLists bytes.now 0 lists) }
    {
        let mut rels = Vec::new(alloc);
        for _ in 0..e_shnum(bytes) {
            rels.push(Rels::new(alloc))?;
        }
        Ok(Lists { rels, count: 0 })
    }

    /// The tests of the next section, where it has relocations of a kept one.
    #[tactic(auto, using(elf_model::proofs::Tests::passed_over, elf_model::proofs::Tests::fails_first), unfolding(elf_model::specs::RelEntries::relocating_tests))]
    fn take(
        &mut self,
        bytes: &[u8],
        i: u16,
        numbers: &[Option<u32>],
        symbol_count: u32,
    ) -> Result<(), ReadErr>
        requires headers { HasHeaders bytes.now }
        requires there { i < e_shnum bytes.now }
        requires are_numbers { numbers.now ≡ numbers_of bytes.now }
        requires is_count { symbol_count ≡ symbol.symbol_count bytes.now }
        requires so_far { HasLists bytes.now i self.old }
        ensures tests { Passes result (only_where (spec.relocates bytes.now (section_header bytes.now i)) (spec.relocating_tests bytes.now i)) }
        ensures lists { OnOk result (HasLists bytes.now (i + 1) self.new) }
    {
        let h = section_header(bytes, i);
        if !relocates(numbers, &h) {
            return Ok(());
        }
        self.count = check_table(bytes, i, &h, self.count)?;
        let relocated = section_header(bytes, h.info as u16);
        read_entries(
            bytes,
            &h,
            &relocated,
            symbol_count,
            &mut self.rels[h.info as usize],
        )
    }
}

/// The tests of all relocations, and those of each kept section by the index of its header.
#[tactic(auto, unfolding(elf_model::specs::RelEntries::all_relocating_tests))]
pub fn read_relocations(
    alloc: Global,
    bytes: &[u8],
    numbers: &[Option<u32>],
    symbol_count: u32,
) -> Result<Vec<Rels>, ReadErr>
    requires headers { HasHeaders bytes.now }
    requires are_numbers { numbers.now ≡ numbers_of bytes.now }
    requires is_count { symbol_count ≡ symbol.symbol_count bytes.now }
    ensures { Gives result (spec.all_relocating_tests bytes.now) (λ v. HasRels bytes.now v.items) }
{
    let mut lists = Lists::new(alloc, bytes)?;
    for i in 0..e_shnum(bytes) {
        lists.take(bytes, i, numbers, symbol_count)?;
    }
    Ok(lists.rels)
}
