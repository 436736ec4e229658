//! New modules in a guest's memory.

ghost use Rattle.std.specs.Prelude.{◌≡◌, ℕ, ◌+◌, ◌<◌, ◌≤◌, false, None, All, AllPairs, length, slice_index};
ghost use Rattle.std.specs.List.{AllZip};
ghost use Rattle.elf_model.specs.Sound.{IsSound};
ghost use Rattle.guest_mem.specs.Memory.{HaveKind, byte_at, is_watched, kind_at};
ghost use Rattle.load_map.specs.Whole.{PlacedApart};
ghost use Rattle.load_model.specs.declared.plan.MemPlan.{MemPlan};
ghost use Rattle.load_model.specs.Image.{load_map_at};
ghost use Rattle.load_model.specs.Layout.{HasLoadMap, InMemory, IsLaidOut};
ghost use Rattle.fd_base.specs.Ranges.{is_in};
ghost use Rattle.load_memory.specs.parts.Modules.{with_module};
ghost use Rattle.load_memory.specs.parts.PlacingSteps.{IsPlacedBy, LiesWithin};

use crate::segments::{map_segments, write_parts};
use crate::tables::put_load_map;
use crate::watch::watch_ranges;
use elf_model::Object;
use fd_base::Bytes;
use guest_mem::Guest;
use load_map::MapEntry;
use load_model::{LOAD_MAP_SIZE, MAX_MODULES};

/// Places a new module: maps its segments, writes their finished bytes and its load map, and watches what no store may
/// change. Its segments lie in memory that is free, apart from each other and above the load maps.
pub fn put_module(
    guest: &mut Guest,
    number: u32,
    object: &Object,
    load_map: &[MapEntry],
    parts: &[Bytes],
)
    requires number { number < MAX_MODULES }
    requires sound { IsSound object.now }
    requires segments { AllZip IsPlacedBy object.now.segments load_map.now }
    requires tables { load_map_at MAX_MODULES ≤ length guest.old.bytes }
    requires inside { All (LiesWithin (load_map_at MAX_MODULES) (length guest.old.bytes)) load_map.now }
    requires free { All (λ e. HaveKind guest.old e.addr e.memsz None) load_map.now }
    requires apart { AllPairs PlacedApart load_map.now }
    requires parts { AllZip (λ e part. length part ≡ e.memsz) load_map.now parts.now }
    ensures layout { (plan : MemPlan) (mods : InMemory) → mods.objects number ≡ None → IsLaidOut plan mods guest.old →
        IsLaidOut plan (with_module mods number object.entry.now load_map.now) guest.new }
    ensures bytes { AllZip (λ e part. (i : ℕ) → i < e.memsz → byte_at guest.new (e.addr + i) ≡ slice_index part i) load_map.now parts.now }
    ensures load_map { HasLoadMap guest.new number load_map.now }
    ensures rest { (a : ℕ) → All (λ e. is_in e.addr e.memsz a ≡ false) load_map.now → is_in (load_map_at number) LOAD_MAP_SIZE a ≡ false →
        byte_at guest.new a ≡ byte_at guest.old a }
    ensures kinds { (a : ℕ) → All (λ e. is_in e.addr e.memsz a ≡ false) load_map.now → kind_at guest.new a ≡ kind_at guest.old a }
    ensures watch { (a : ℕ) → All (λ e. is_in e.addr e.memsz a ≡ false) load_map.now → is_watched guest.new a ≡ is_watched guest.old a }
    ensures size { length guest.new.bytes ≡ length guest.old.bytes }
{
    guest.whole();
    map_segments(guest, object.segments.as_slice(), load_map);
    write_parts(guest, load_map, parts);
    put_load_map(guest, number, load_map);
    watch_ranges(guest, object, load_map);
    guest.whole();
}
