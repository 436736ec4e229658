//! What the slots of modules hold.

ghost use Rattle.std.specs.Prelude.{◌≡◌, ℕ, ◌+◌, ◌^◌, ◌<◌, ◌≤◌, All, length};
ghost use Rattle.guest_mem.specs.Memory.{byte_at};
ghost use Rattle.load_map.specs.parts.IsLoadMap.{EndsBelow};
ghost use Rattle.load_model.specs.declared.words.SlotPair.{SlotPair};
ghost use Rattle.load_map.specs.Maps.{map_at};
ghost use Rattle.load_state.specs.Slots.{slot_pair_of};
ghost use Rattle.mod_load.specs.parts.SlotWords.{HasSlots, HasWordAt, IsFilled};

use guest_mem::Guest;
use load_map::{MapEntry, map_at, placed};
use load_model::{MapEntries, SlotPair, SymbolicProcess};

/// The little-endian word at an address, whatever it is mapped as.
fn word_at(guest: &Guest, addr: u32) -> u32
    requires { addr + 4 ≤ length guest.now.bytes }
    ensures { (w : ℕ) → w < 2 ^ 32 → HasWordAt guest.now addr w → result ≡ w }
{
    guest.whole();
    u32::from_le_bytes([
        guest.peek(addr),
        guest.peek(addr + 1),
        guest.peek(addr + 2),
        guest.peek(addr + 3),
    ])
}

/// The slot at an address.
fn pair_at(guest: &Guest, addr: u32) -> SlotPair
    requires { addr + 8 ≤ length guest.now.bytes }
    ensures { (s : SlotPair) → s.addr ≡ addr → IsFilled guest.now s → result ≡ s }
{
    guest.whole();
    SlotPair {
        addr,
        code: word_at(guest, addr),
        got: word_at(guest, addr + 4),
    }
}

/// Slot `k` of module `m`, by its words in memory.
pub(crate) fn slot_pair(
    process: &SymbolicProcess,
    maps: &[MapEntries],
    guest: &Guest,
    m: u32,
    k: u32,
) -> Option<SlotPair>
    requires maps { All (All EndsBelow) maps.now }
    requires filled { HasSlots process.now maps.now guest.now }
    ensures { result ≡ slot_pair_of process.now maps.now m k }
{
    let object = process.object_at(m)?;
    let slot = object.jmprels.as_slice().get(k as usize)?;
    let addr = placed(map_at(maps, m), slot.site);
    Some(pair_at(guest, addr))
}
