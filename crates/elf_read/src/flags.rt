//! What the entries say of the object as a whole.

ghost use Rattle.std.specs.Prelude.{◌≡◌};
ghost use Rattle.elf_model.specs.Fields as spec;

use crate::dynamic::{first_of, value_of};
use crate::held::has_flag;
use elf_model::constants::{
    DF_BIND_NOW, DF_SYMBOLIC, DT_BIND_NOW, DT_FINI, DT_FINI_ARRAY, DT_FINI_ARRAYSZ, DT_FLAGS,
    DT_INIT, DT_INIT_ARRAY, DT_INIT_ARRAYSZ, DT_SYMBOLIC,
};
use elf_model::{DynEntry, Extent, Inits};

fn has_tag(tag: u32, entries: &[DynEntry]) -> bool
    ensures { result ≡ spec.has_tag tag entries.now }
{
    first_of(tag, entries).is_some()
}

/// Whether DT_FLAGS is there with this flag.
fn has_dynamic_flag(flag: u32, entries: &[DynEntry]) -> bool
    ensures { result ≡ spec.has_dynamic_flag flag entries.now }
{
    match value_of(DT_FLAGS, entries) {
        None => false,
        Some(flags) => has_flag(flags, flag),
    }
}

/// Whether symbols are looked up in this object first.
#[tactic(auto, unfolding(elf_model::specs::Fields::is_symbolic))]
pub fn is_symbolic(entries: &[DynEntry]) -> bool
    ensures { result ≡ spec.is_symbolic entries.now }
{
    has_tag(DT_SYMBOLIC, entries) || has_dynamic_flag(DF_SYMBOLIC, entries)
}

/// Whether every slot is to be bound at loading.
#[tactic(auto, unfolding(elf_model::specs::Fields::is_now))]
pub fn is_now(entries: &[DynEntry]) -> bool
    ensures { result ≡ spec.is_now entries.now }
{
    has_tag(DT_BIND_NOW, entries) || has_dynamic_flag(DF_BIND_NOW, entries)
}

/// The array of two tags, where both are there and it has bytes.
#[tactic(auto, unfolding(elf_model::specs::Fields::extent_of))]
fn extent_of(entries: &[DynEntry], addr_tag: u32, size_tag: u32) -> Option<Extent>
    ensures { result ≡ spec.extent_of entries.now addr_tag size_tag }
{
    match (value_of(addr_tag, entries), value_of(size_tag, entries)) {
        (Some(addr), Some(size)) => {
            if 0 < size {
                Some(Extent { addr, size })
            } else {
                None
            }
        }
        _ => None,
    }
}

/// What the object wants to have called.
#[tactic(auto, unfolding(elf_model::specs::Fields::inits_of))]
pub fn inits_of(entries: &[DynEntry]) -> Inits
    ensures { result ≡ spec.inits_of entries.now }
{
    Inits {
        init: value_of(DT_INIT, entries),
        fini: value_of(DT_FINI, entries),
        init_array: extent_of(entries, DT_INIT_ARRAY, DT_INIT_ARRAYSZ),
        fini_array: extent_of(entries, DT_FINI_ARRAY, DT_FINI_ARRAYSZ),
    }
}
