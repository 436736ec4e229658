//! The slots of an object by the offsets of their sites from the GOT.

ghost use Rattle.std.specs.Prelude.{◌≤◌, length, IfOk};
ghost use Rattle.elf_model.specs.declared.constants.TheConstants.{MAX_ENTRIES};
ghost use Rattle.plt_code.specs.Table.{HasOffsets};

use elf_model::Rel;
use fd_base::Memory;
use std::alloc::Global;
use std::collections::BTreeMap;

/// Slots by the offsets of their sites from the GOT.
pub(crate) type SlotTable = BTreeMap<u32, u32>;

/// The table of the slots.
pub(crate) fn slot_table(alloc: Global, got: u32, slots: &[Rel]) -> Result<SlotTable, Memory>
    requires { length slots.now ≤ MAX_ENTRIES }
    ensures { IfOk result (HasOffsets got slots.now (length slots.now)) }
{
    let mut table = BTreeMap::new(alloc);
    for (k, slot) in slots.iter().enumerate() {
        table.insert(slot.site.wrapping_sub(got), k as u32)?;
    }
    Ok(table)
}
