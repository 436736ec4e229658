//! The entries in one executable segment.

ghost use Rattle.std.specs.Prelude.{◌≡◌, ℕ, ◌+◌, ◌%◌, ◌^◌, ◌<◌, true, length, IfSome, IfNone, OnOk};
ghost use Rattle.elf_model.specs.Sound.{IsSound};
ghost use Rattle.plt_code.specs.Entries.{IsPltEntry};
ghost use Rattle.plt_code.specs.parts.Scanned.{ListsBelow, IsText};
ghost use Rattle.plt_code.specs.Standing as standing;
ghost use Rattle.plt_code.specs.Table.{HasOffsets};

use crate::listing::{Entries, Entry};
use crate::standing::{is_near, stands_call};
use crate::table::SlotTable;
use elf_model::{Object, Segment, file_word};
use fd_base::Memory;

/// The slot whose entry stands at a place of the code.
fn slot_called_at(o: &Object, table: &SlotTable, at: u32) -> Option<u32>
    requires sound { IsSound o.now }
    requires slots { HasOffsets o.now.got o.now.jmprels (length o.now.jmprels) table.now }
    requires aligned { at % 4 ≡ 0 }
    requires code { standing.is_code_in o.now.segments at 20 ≡ true }
    requires small { at + 20 < 2 ^ 32 }
    ensures entry { IfSome result (λ slot. IsPltEntry o.entry.now at slot) }
    ensures none { IfNone result ((slot : ℕ) → ¬ IsPltEntry o.entry.now at slot) }
{
    let segments = o.segments.as_slice();
    if !stands_call(segments, at) {
        return None;
    }
    let slot = *table.get(&file_word(segments, at + 16))?;
    if is_near(segments, o.jmprels.as_slice()[slot as usize].site, o.got) {
        Some(slot)
    } else {
        None
    }
}

/// Lists the entries in an executable segment, where all below it are listed.
pub(crate) fn scan(
    o: &Object,
    table: &SlotTable,
    text: &Segment,
    found: &mut Entries,
) -> Result<(), Memory>
    requires sound { IsSound o.now }
    requires slots { HasOffsets o.now.got o.now.jmprels (length o.now.jmprels) table.now }
    requires text { IsText o.now.segments text.now }
    requires listed { ListsBelow o.now text.now.vaddr found.old }
    ensures { OnOk result (ListsBelow o.entry.now (text.now.vaddr + text.now.memsz) found.new) }
{
    let end = text.vaddr + text.filled.len() as u32;
    for n in text.vaddr.div_ceil(4)..end.saturating_sub(16) / 4 {
        if let Some(slot) = slot_called_at(o, table, 4 * n) {
            found.push(Entry { at: 4 * n, slot })?;
        }
    }
    Ok(())
}
