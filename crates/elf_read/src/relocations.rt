//! The relocations by themselves: their kinds, their symbols and their sites.

ghost use Rattle.std.specs.Prelude.{◌≡◌, ◌<◌, ◌^◌, ◌+◌, ◌++◌, [], ◌∷◌, List, length, All, IfOk, OnOk, true};
ghost use Rattle.elf_model.specs.declared.table.Site.{Site};
ghost use Rattle.elf_model.specs.Relocations as spec;
ghost use Rattle.elf_read.specs.parts.Taken.{Has};
ghost use Rattle.elf_read.specs.parts.Passes.{Passes, Gives};

use crate::error::ReadErr;
use crate::got::got_header;
use crate::refusals::refuse;
use crate::sites::Taken;
use elf_model::constants::{
    R_ARM_ABS32, R_ARM_FUNCDESC, R_ARM_FUNCDESC_VALUE, R_ARM_GLOB_DAT, R_ARM_NONE, R_ARM_REL32,
    R_ARM_RELATIVE,
};
use elf_model::{ElfKind, ProgramHeader, Rel, RelEntry, RelTable, Rels, Site};
use fd_base::Memory;
use std::alloc::Global;

/// Whether entries of this kind may stand in the table.
fn is_kind_of(table: RelTable, kind: u8) -> bool
    ensures { result ≡ spec.is_kind_of table kind }
{
    match table {
        RelTable::Rel => {
            kind == R_ARM_NONE
                || kind == R_ARM_ABS32
                || kind == R_ARM_REL32
                || kind == R_ARM_GLOB_DAT
                || kind == R_ARM_RELATIVE
                || kind == R_ARM_FUNCDESC
                || kind == R_ARM_FUNCDESC_VALUE
        }
        RelTable::JmpRel => kind == R_ARM_FUNCDESC_VALUE,
    }
}

/// Whether an entry fills a site.
fn fills(e: &RelEntry) -> bool
    ensures { result ≡ spec.fills e.now }
{
    e.kind != R_ARM_NONE
}

/// The site of an entry: two words for a function's descriptor, else one.
fn site_of(e: &RelEntry) -> Site
    ensures { result ≡ spec.site_of e.now }
{
    let size = if e.kind == R_ARM_FUNCDESC_VALUE { 8 } else { 4 };
    Site { addr: e.site, size }
}

/// The tests of an entry. Its site is taken where it passes them.
#[tactic(auto, unfolding(elf_model::specs::Relocations::rel_entry_tests))]
fn check_entry(
    loads: &[ProgramHeader],
    symbol_count: u32,
    taken: &mut Taken,
    e: &RelEntry,
) -> Result<(), ReadErr>
    requires below { All (λ h. h.vaddr + h.memsz < 2 ^ 32) loads.now }
    ensures tests { (sites : List Site) → Has taken.old sites
        → Passes result (spec.rel_entry_tests loads.now symbol_count sites e.now) }
    ensures taken { OnOk result ((sites : List Site) → Has taken.old sites
        → Has taken.new (sites ++ spec.sites_of (e.now ∷ []))) }
{
    refuse(!is_kind_of(e.table, e.kind), ElfKind::RelocType, e.offset)?;
    refuse(
        e.symbol != 0 && symbol_count <= e.symbol,
        ElfKind::Table,
        e.offset,
    )?;
    if !fills(e) {
        return Ok(());
    }
    taken.fill(loads, &site_of(e), e.offset)
}

/// The tests of each entry in turn, over a GOT that is in its place. Gives the words that are taken then.
#[tactic(auto, unfolding(elf_model::specs::Relocations::all_rel_tests))]
pub fn check_relocations(
    alloc: Global,
    loads: &[ProgramHeader],
    symbol_count: u32,
    got: u32,
    entries: &[RelEntry],
) -> Result<Taken, ReadErr>
    requires below { All (λ h. h.vaddr + h.memsz < 2 ^ 32) loads.now }
    requires got { spec.is_in_place loads.now (spec.got_header got) ≡ true }
    ensures { Gives result (spec.all_rel_tests loads.now symbol_count got entries.now)
        (λ t. Has t (spec.got_header got ∷ spec.sites_of entries.now)) }
{
    let mut taken = Taken::new(alloc);
    taken.take(loads, &got_header(got))?;
    for e in entries {
        check_entry(loads, symbol_count, &mut taken, e)?;
    }
    Ok(taken)
}

/// The relocations that fill something.
pub fn rels_of(alloc: Global, entries: &[RelEntry]) -> Result<Rels, Memory>
    ensures { IfOk result (λ r. r ≡ spec.rels_of entries.now) }
{
    let mut rels = Rels::new(alloc);
    for e in entries {
        if fills(e) {
            rels.push(Rel {
                site: e.site,
                kind: e.kind,
                symbol: e.symbol,
            })?;
        }
    }
    Ok(rels)
}
