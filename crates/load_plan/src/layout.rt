//! Where what is linked goes.

ghost use Rattle.std.specs.Prelude.{◌≡◌, ◌≤◌, length, All, IfOk, IfErr};
ghost use Rattle.symbol_scope.specs.declared.tables.TheConstants.{MAX_MODULES};
ghost use Rattle.load_map.specs.parts.IsLoadMap.{EndsBelow};
ghost use Rattle.load_plan.specs.parts.Layout.{IsRoomy, IsLaid, IsUnlaid};
ghost use Rattle.load_plan.specs.parts.LinkedLoad.{AreNew};

use crate::filling::slots_for;
use crate::linking::Linked;
use crate::maps::maps_with;
use crate::placing::{Placing, place};
use func_desc::DescPool;
use load_image::placed_pairs;
use load_model::{LoadErr, MapEntries, Maps, MemPlan, SymbolicProcess};
use load_state::Descriptors;
use placement::{Addrs, Items, Ranges};
use std::alloc::Global;

/// What is loaded when a load is planned.
#[derive(Drop)]
pub struct Standing<'a> {
    pub alloc: Global,
    pub plan: &'a MemPlan,
    pub process: &'a SymbolicProcess,
    /// The load map of each module, by number.
    pub maps: &'a [MapEntries],
}

/// Where the new modules of a load go, and which descriptors they bring.
#[derive(Drop)]
pub struct Layout {
    pub items: Items,
    pub addrs: Addrs,
    /// The load maps after the load.
    pub maps: Maps,
    /// The new modules' own descriptors, each with its placed address.
    pub adopted: Descriptors,
    /// The functions that get a slot, each with its address.
    pub given: Descriptors,
}

/// A slot for each function that needs one, or DescriptorsFull, and then an address for each new segment, or NoRoom.
/// The ranges that are held stay, and there is room for more.
pub fn lay_out(
    standing: &Standing,
    ranges: &mut Ranges,
    pool: &DescPool,
    linked: &Linked,
) -> Result<Layout, LoadErr>
    requires roomy { IsRoomy standing.now ranges.old pool.now }
    requires new { AreNew standing.now.process.now linked.now.joining }
    requires few { length linked.now.joining ≤ MAX_MODULES }
    ensures laid { IfOk result (IsLaid standing.entry.now ranges.old pool.now linked.entry.now) }
    ensures ends { IfOk result (λ l. All (All EndsBelow) l.maps) }
    ensures room { IfOk result (λ l. length l.items ≤ ranges.new.room) }
    ensures error { IfErr result (IsUnlaid standing.entry.now ranges.old pool.now linked.entry.now) }
    ensures grows { ranges.old.room ≤ ranges.new.room }
    ensures stays { ranges.new ≡ record ranges.old { room = ranges.new.room } }
{
    let alloc = standing.alloc;
    let joining = linked.joining.as_slice();
    let given = slots_for(alloc, pool, linked.wanted.as_slice())?;
    let Placing { items, addrs } = place(alloc, standing.plan.places.as_slice(), ranges, joining)?;
    let maps = maps_with(alloc, standing.maps, joining, addrs.as_slice())?;
    let adopted = placed_pairs(alloc, maps.as_slice(), linked.privates.as_slice())?;
    Ok(Layout {
        items,
        addrs,
        maps,
        adopted,
        given,
    })
}
