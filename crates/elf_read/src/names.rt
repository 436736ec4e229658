//! The names of objects: those that an object needs, and the one that it gives itself.

ghost use Rattle.std.specs.Prelude.{◌≡◌, IfOk};
ghost use Rattle.elf_model.specs.Dynamic as spec;
ghost use Rattle.elf_read.specs.parts.Passes.{Reads};

use crate::dynamic::first_of;
use crate::error::ReadErr;
use crate::refusals::{refusal, refuse};
use crate::strings::name_at;
use elf_model::constants::{DT_NEEDED, DT_SONAME, MAX_NEEDED};
use elf_model::{DynEntry, ElfKind};
use fd_base::{Memory, Name, Names};
use std::alloc::Global;

fn needed_entries(alloc: Global, entries: &[DynEntry]) -> Result<Vec<DynEntry>, Memory>
    ensures { IfOk result (λ v. v.items ≡ spec.needed_entries entries.now) }
{
    entries
        .iter()
        .filter(|e| e.tag == DT_NEEDED)
        .copied()
        .collect(alloc)
}

/// The name of an entry, before which stand `k` needed names.
#[tactic(auto, unfolding(elf_model::specs::Dynamic::needed_entry_tests))]
fn needed_name(alloc: Global, strings: &[u8], k: usize, e: &DynEntry) -> Result<Name, ReadErr>
    ensures { Reads (λ n. n) result (spec.needed_entry_tests strings.now k e.now)
        (spec.needed_name strings.now e.now) }
{
    refuse(MAX_NEEDED <= k, ElfKind::TooMany, e.offset)?;
    match name_at(alloc, strings, e.value)? {
        None => Err(refusal(ElfKind::NameRange, e.offset)),
        Some(name) => Ok(name),
    }
}

/// The needed names in order.
#[tactic(auto, unfolding(elf_model::specs::Dynamic::needed_tests, elf_model::specs::Dynamic::needed_of))]
pub fn read_needed(alloc: Global, strings: &[u8], entries: &[DynEntry]) -> Result<Names, ReadErr>
    ensures { Reads (λ v. v) result (spec.needed_tests strings.now entries.now)
        (spec.needed_of strings.now entries.now) }
{
    let needed = needed_entries(alloc, entries)?;
    let mut names = Names::new(alloc);
    for (k, e) in needed.iter().enumerate() {
        names.push(needed_name(alloc, strings, k, e)?)?;
    }
    Ok(names)
}

/// The name that the object gives itself.
#[tactic(auto, unfolding(elf_model::specs::Dynamic::soname_tests, elf_model::specs::Dynamic::soname_of))]
pub fn read_soname(
    alloc: Global,
    strings: &[u8],
    entries: &[DynEntry],
) -> Result<Option<Name>, ReadErr>
    ensures { Reads (λ n. n) result (spec.soname_tests strings.now entries.now)
        (spec.soname_of strings.now entries.now) }
{
    let Some(e) = first_of(DT_SONAME, entries) else {
        return Ok(None);
    };
    match name_at(alloc, strings, e.value)? {
        None => Err(refusal(ElfKind::NameRange, e.offset)),
        Some(name) => Ok(Some(name)),
    }
}
