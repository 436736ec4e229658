//! Functions with private descriptors.

ghost use Rattle.std.specs.Prelude.{◌≡◌, All, IfOk};
ghost use Rattle.load_map.specs.parts.IsLoadMap.{EndsBelow};
ghost use Rattle.load_image.specs.Places.{placed_pairs_of};

use elf_model::Func;
use fd_base::{Memory, Seq};
use load_map::{map_at, placed};
use load_model::MapEntries;
use std::alloc::Global;

/// A function, and a link address of its module or a placed address.
pub type SitePair = (Func, u32);

/// The same functions, each with the placed address in place of the link address.
pub fn placed_pairs(
    alloc: Global,
    maps: &[MapEntries],
    pairs: &[SitePair],
) -> Result<Seq<SitePair>, Memory>
    requires { All (All EndsBelow) maps.now }
    ensures { IfOk result (λ placed. placed ≡ placed_pairs_of maps.now pairs.now) }
{
    let mut placed_at = Seq::new(alloc);
    for pair in pairs {
        placed_at.push((pair.0, placed(map_at(maps, pair.0.module), pair.1)))?;
    }
    Ok(placed_at)
}
