//! The load maps of modules in a guest's memory.

ghost use Rattle.std.specs.Prelude.{◌≡◌, ℕ, ◌+◌, ◌*◌, ◌<◌, ◌≤◌, false, length};
ghost use Rattle.guest_mem.specs.parts.Kept.{SameMap};
ghost use Rattle.guest_mem.specs.Memory.{byte_at};
ghost use Rattle.load_model.specs.Image.{load_map_at};
ghost use Rattle.load_model.specs.Layout.{HasLoadMap};
ghost use Rattle.fd_base.specs.Ranges.{is_in};

use crate::bytes::{clear_bytes, fill_bytes};
use guest_mem::Guest;
use load_map::{MAX_ENTRIES, MapEntry, MapImage};
use load_model::{LOAD_MAP_SIZE, MAX_MODULES, load_map_at};

/// Writes the load map of the module of this number, and zeros up to the next one.
pub(crate) fn put_load_map(guest: &mut Guest, number: u32, load_map: &[MapEntry])
    requires number { number < MAX_MODULES }
    requires few { length load_map.now ≤ MAX_ENTRIES }
    requires inside { load_map_at MAX_MODULES ≤ length guest.old.bytes }
    ensures load_map { HasLoadMap guest.new number load_map.now }
    ensures rest { (a : ℕ) → is_in (load_map_at number) LOAD_MAP_SIZE a ≡ false → byte_at guest.new a ≡ byte_at guest.old a }
    ensures map { SameMap guest.old guest.new }
{
    let addr = load_map_at(number);
    let image = MapImage::of(load_map);
    let bytes = image.as_slice();
    let size = bytes.len() as u32;
    fill_bytes(guest, addr, bytes);
    clear_bytes(guest, addr + size, LOAD_MAP_SIZE - size);
}
