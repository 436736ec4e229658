//! Load maps by the numbers of their modules.

ghost use Rattle.std.specs.Prelude.{◌≡◌};
ghost use Rattle.load_map.specs.Maps.{map_at};

use crate::entry::MapEntry;
use fd_base::Seq;

/// The entries of a module's load map, and none for a number that has no load map.
pub fn map_at(maps: &[Seq<MapEntry>], m: u32) -> &[MapEntry]
    ensures { result.now ≡ map_at maps.now m }
{
    match maps.get(m as usize) {
        Some(map) => map.as_slice(),
        None => &[],
    }
}
