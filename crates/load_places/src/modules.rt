//! New modules put into a guest's memory.

ghost use Rattle.std.specs.Prelude.{◌≡◌, length};
ghost use Rattle.load_places.specs.parts.Modules.{HasModulesPut};
ghost use Rattle.load_places.specs.parts.Placeable.{ArePlaceable};

use fd_base::{Bytes, Seq};
use guest_mem::Guest;
use load_map::map_at;
use load_memory::put_module;
use load_model::{Joining, MapEntries};

/// Places new modules, one after another: maps their segments, writes their finished bytes and their load maps, and
/// watches what no store may change. `maps` has the load map of each module by number, and `parts` the bytes of the
/// segments of each new module in turn.
pub fn put_modules(
    guest: &mut Guest,
    joining: &[Joining],
    maps: &[MapEntries],
    parts: &[Seq<Bytes>],
)
    requires { ArePlaceable guest.old joining.now maps.now parts.now }
    ensures put { HasModulesPut joining.now maps.now parts.now guest.old guest.new }
    ensures size { length guest.new.bytes ≡ length guest.old.bytes }
{
    for i in 0..joining.len() {
        let module = &joining[i];
        let load_map = map_at(maps, module.number);
        put_module(
            guest,
            module.number,
            &module.object,
            load_map,
            parts[i].as_slice(),
        );
    }
}
