//! Where the segments of new modules go.

ghost use Rattle.std.specs.Prelude.{◌≡◌, ◌++◌, ◌+◌, ◌*◌, ◌<◌, ◌≤◌, ◌^◌, ℕ, length, All, IfOk, IfErr, OnOk};
ghost use Rattle.elf_model.specs.declared.constants.TheConstants.{MAX_SEGMENTS};
ghost use Rattle.elf_model.specs.Sound.{IsSound};
ghost use Rattle.placement.specs.Space.{IsOwned, IsPlaced};
ghost use Rattle.placement.specs.declared.item.Item.{Item};
ghost use Rattle.symbol_scope.specs.declared.tables.TheConstants.{MAX_MODULES};
ghost use Rattle.load_model.specs.declared.module.Joining.{Joining};
ghost use Rattle.load_state.specs.Accepted.{all_items, items_for};
ghost use Rattle.load_plan.specs.parts.NoPlaces.{IsUnplaced};

use fd_base::{Memory, Seq};
use load_image::items;
use load_model::{Joining, LoadErr, LoadRefusal, PlaceLine, listed_for};
use placement::{Addrs, Item, Items, PlaceErr, Ranges};
use std::alloc::Global;

/// Puts the segments of a new module behind other items.
fn push_items(
    alloc: Global,
    all: &mut Items,
    places: &[PlaceLine],
    new: &Joining,
) -> Result<(), Memory>
    requires number { new.now.number < MAX_MODULES }
    requires sound { IsSound new.now.object }
    ensures items { OnOk result (all.new ≡ all.old ++ items_for places.now new.now) }
{
    let listed = listed_for(places, &new.name);
    let items = items(alloc, new.number, new.object.segments.as_slice(), listed)?;
    all.extend_from_slice(items.as_slice())
}

/// The segments of new modules as items to be placed, with the addresses that are listed for them.
fn items_of_all(alloc: Global, places: &[PlaceLine], joining: &[Joining]) -> Result<Items, Memory>
    requires numbers { All (λ j. j.number < MAX_MODULES) joining.now }
    requires sound { All (λ j. IsSound j.object) joining.now }
    ensures { IfOk result (λ items. items ≡ all_items places.now joining.now) }
{
    let mut all = Seq::new(alloc);
    for new in joining {
        push_items(alloc, &mut all, places, new)?;
    }
    Ok(all)
}

/// Where new segments go. Their ranges are not held yet.
#[derive(Drop)]
pub struct Placing {
    pub items: Items,
    pub addrs: Addrs,
}

/// Places the segments of new modules: at their listed addresses, and else at the lowest legal ones. The ranges that are
/// held stay, and there is room for more.
pub fn place(
    alloc: Global,
    places: &[PlaceLine],
    ranges: &mut Ranges,
    joining: &[Joining],
) -> Result<Placing, LoadErr>
    requires numbers { All (λ j. j.number < MAX_MODULES) joining.now }
    requires sound { All (λ j. IsSound j.object) joining.now }
    requires few { length ranges.old.held + MAX_SEGMENTS * length joining.now < 2 ^ 32 }
    ensures items { IfOk result (λ p. p.items ≡ all_items places.now joining.now) }
    ensures placed { IfOk result (λ p. IsPlaced ranges.old p.items p.addrs) }
    ensures room { IfOk result (λ p. length p.items ≤ ranges.new.room) }
    ensures error { IfErr result (IsUnplaced ranges.old (all_items places.now joining.now)) }
    ensures grows { ranges.old.room ≤ ranges.new.room }
    ensures stays { ranges.new ≡ record ranges.old { room = ranges.new.room } }
{
    let items = items_of_all(alloc, places, joining)?;
    match ranges.plan(&items) {
        Err(PlaceErr::NoRoom(i)) => Err(LoadErr::Refused(LoadRefusal::NoRoom(i))),
        Err(PlaceErr::Memory) => Err(LoadErr::Memory),
        Ok(addrs) => Ok(Placing { items, addrs }),
    }
}
