//! What no store may change in the memory of a module.

ghost use Rattle.std.specs.Prelude.{◌≡◌, ◌==◌, All, [], ◌∷◌};
ghost use Rattle.load_map.specs.Translation.{placed};
ghost use Rattle.load_map.specs.parts.IsLoadMap.{EndsBelow};
ghost use Rattle.load_model.specs.Layout.{watched_ranges};
ghost use Rattle.load_memory.specs.declared.watch.TheConstants.{GOT_HEADER_SIZE};
ghost use Rattle.load_memory.specs.parts.WatchedRanges.{AreWatched, IsWatchable, pair_ranges};

use elf_model::constants::R_ARM_FUNCDESC_VALUE;
use elf_model::{Object, Rel, Segment, is_executable_in};
use guest_mem::Guest;
use load_map::{MapEntry, placed};
use load_model::DESCRIPTOR_SIZE;

/// The size of the header of the GOT, in bytes.
const GOT_HEADER_SIZE: u32 = 12;

/// Watches what was placed of `len` bytes at a link address. Code is watched anyway.
fn watch_range(guest: &mut Guest, segments: &[Segment], load_map: &[MapEntry], v: u32, len: u32)
    requires ends { All EndsBelow load_map.now }
    requires watchable { IsWatchable segments.now load_map.now guest.old v len }
    ensures { AreWatched ((placed load_map.now v, len) ∷ []) guest.old guest.new }
{
    guest.whole();
    if !is_executable_in(segments, v) {
        guest.watch(placed(load_map, v), len);
    }
}

/// Watches the descriptor that a relocation fills, if it fills one.
fn watch_pair(guest: &mut Guest, segments: &[Segment], load_map: &[MapEntry], rel: &Rel)
    requires ends { All EndsBelow load_map.now }
    requires watchable { rel.now.kind ≡ R_ARM_FUNCDESC_VALUE → IsWatchable segments.now load_map.now guest.old rel.now.site DESCRIPTOR_SIZE }
    ensures { AreWatched (pair_ranges load_map.now (rel.now ∷ [])) guest.old guest.new }
{
    if rel.kind == R_ARM_FUNCDESC_VALUE {
        watch_range(guest, segments, load_map, rel.site, DESCRIPTOR_SIZE);
    }
}

/// Watches the descriptors that these relocations fill.
fn watch_pairs(guest: &mut Guest, segments: &[Segment], load_map: &[MapEntry], rels: &[Rel])
    requires ends { All EndsBelow load_map.now }
    requires watchable { All (λ r. r.kind ≡ R_ARM_FUNCDESC_VALUE → IsWatchable segments.now load_map.now guest.old r.site DESCRIPTOR_SIZE) rels.now }
    ensures { AreWatched (pair_ranges load_map.now rels.now) guest.old guest.new }
{
    for rel in rels {
        watch_pair(guest, segments, load_map, rel);
    }
}

/// Watches the header of the GOT and the descriptors of a module.
pub(crate) fn watch_ranges(guest: &mut Guest, object: &Object, load_map: &[MapEntry])
    requires ends { All EndsBelow load_map.now }
    requires got { IsWatchable object.now.segments load_map.now guest.old object.now.got GOT_HEADER_SIZE }
    requires rels { All (λ r. r.kind ≡ R_ARM_FUNCDESC_VALUE → IsWatchable object.now.segments load_map.now guest.old r.site DESCRIPTOR_SIZE) object.now.rels }
    requires slots { All (λ r. r.kind ≡ R_ARM_FUNCDESC_VALUE → IsWatchable object.now.segments load_map.now guest.old r.site DESCRIPTOR_SIZE) object.now.jmprels }
    ensures { AreWatched (watched_ranges load_map.now object.entry.now) guest.old guest.new }
{
    let segments = object.segments.as_slice();
    watch_range(guest, segments, load_map, object.got, GOT_HEADER_SIZE);
    watch_pairs(guest, segments, load_map, object.rels.as_slice());
    watch_pairs(guest, segments, load_map, object.jmprels.as_slice());
}
