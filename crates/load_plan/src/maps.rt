//! The load maps after a load.

ghost use Rattle.std.specs.Prelude.{◌≡◌, ◌+◌, ◌<◌, ◌≤◌, length, drop, set, sum_by, All, IfOk, OnOk};
ghost use Rattle.load_model.specs.declared.module.Joining.{Joining};
ghost use Rattle.load_image.specs.Items.{load_map_of};
ghost use Rattle.load_state.specs.Accepted.{maps_after};

use fd_base::{Memory, Seq};
use load_image::load_map;
use load_model::{Joining, MapEntries};
use std::alloc::Global;

/// The same load maps in memory of their own.
fn copied(alloc: Global, maps: &[MapEntries]) -> Result<Vec<MapEntries>, Memory>
    ensures { IfOk result (λ copy. copy.items ≡ maps.now) }
{
    let mut copy = Vec::new(alloc);
    for map in maps {
        copy.push(Seq::from_slice(alloc, map.as_slice())?)?;
    }
    Ok(copy)
}

/// Puts the load map of a new module, whose segments lie at these addresses, into its place.
fn enter_map(maps: &mut Vec<MapEntries>, new: &Joining, addrs: &[u32]) -> Result<(), Memory>
    requires number { new.now.number < length maps.old.items }
    requires count { length addrs.now ≡ length new.now.object.segments }
    ensures { OnOk result (maps.new.items ≡ set maps.old.items new.now.number (load_map_of new.now.object.segments addrs.now)) }
{
    let map = load_map(*maps.allocator(), new.object.segments.as_slice(), addrs)?;
    maps[new.number as usize] = map;
    Ok(())
}

/// The load maps by module number, with those of new modules, whose segments lie at these addresses in order.
pub fn maps_with(
    alloc: Global,
    maps: &[MapEntries],
    joining: &[Joining],
    addrs: &[u32],
) -> Result<Seq<MapEntries>, Memory>
    requires numbers { All (λ j. j.number < length maps.now) joining.now }
    requires count { sum_by (λ j. length j.object.segments) joining.now ≡ length addrs.now }
    ensures { IfOk result (λ after. after ≡ maps_after maps.now joining.now addrs.now) }
{
    let mut after = copied(alloc, maps)?;
    let mut from = 0;
    for new in joining {
        let end = from + new.object.segments.len();
        enter_map(&mut after, new, &addrs[from..end])?;
        from = end;
    }
    Ok(Seq::from_vec(after))
}
