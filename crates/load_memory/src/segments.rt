//! The segments of a module in a guest's memory.

ghost use Rattle.std.specs.Prelude.{◌≡◌, ◌+◌, ◌≤◌, None, All, AllPairs, length};
ghost use Rattle.std.specs.List.{AllZip};
ghost use Rattle.guest_mem.specs.Memory.{HaveKind};
ghost use Rattle.load_map.specs.Whole.{PlacedApart};
ghost use Rattle.load_model.specs.Layout.{kind_of_segment};
ghost use Rattle.load_memory.specs.parts.PlacingSteps.{AreMapped, AreFilled};

use crate::bytes::fill_bytes;
use elf_model::Segment;
use elf_model::constants::{PF_W, PF_X};
use fd_base::Bytes;
use guest_mem::{Guest, MemKind};
use load_map::MapEntry;

/// What a segment is mapped as.
fn kind_of(segment: &Segment) -> MemKind
    ensures { result ≡ kind_of_segment segment.now }
{
    if segment.flags & PF_X != 0 {
        MemKind::Code
    } else if segment.flags & PF_W != 0 {
        MemKind::Data
    } else {
        MemKind::Fixed
    }
}

/// Maps each segment where it is placed.
pub(crate) fn map_segments(guest: &mut Guest, segments: &[Segment], load_map: &[MapEntry])
    requires count { length load_map.now ≡ length segments.now }
    requires inside { All (λ e. e.addr + e.memsz ≤ length guest.old.bytes) load_map.now }
    requires free { All (λ e. HaveKind guest.old e.addr e.memsz None) load_map.now }
    requires apart { AllPairs PlacedApart load_map.now }
    ensures mapped { AreMapped segments.now load_map.now (length load_map.now) guest.old guest.new }
    ensures bytes { guest.new.bytes ≡ guest.old.bytes }
{
    guest.whole();
    for i in 0..load_map.len() {
        let entry = &load_map[i];
        guest.map(entry.addr, entry.memsz, kind_of(&segments[i]));
    }
}

/// Writes the bytes of each segment where it is placed.
pub(crate) fn write_parts(guest: &mut Guest, load_map: &[MapEntry], parts: &[Bytes])
    requires inside { All (λ e. e.addr + e.memsz ≤ length guest.old.bytes) load_map.now }
    requires apart { AllPairs PlacedApart load_map.now }
    requires parts { AllZip (λ e part. length part ≡ e.memsz) load_map.now parts.now }
    ensures { AreFilled load_map.now parts.now (length load_map.now) guest.old guest.new }
{
    for k in 0..load_map.len() {
        fill_bytes(guest, load_map[k].addr, parts[k].as_slice());
    }
}
