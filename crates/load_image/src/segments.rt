//! The segments of a module as items to be placed, and its load map.

ghost use Rattle.std.specs.Prelude.{◌≡◌, ◌<◌, length, All, IfOk};
ghost use Rattle.elf_model.specs.Sound.{IsSized};
ghost use Rattle.placement.specs.Space.{IsOwned};
ghost use Rattle.load_image.specs.parts.Bounds.{IsMapOf};
ghost use Rattle.load_image.specs.Items.{items_of, load_map_of};

use elf_model::Segment;
use fd_base::{Memory, Seq};
use load_map::MapEntry;
use load_model::{MAX_MODULES, MapEntries};
use placement::{Item, Items};
use std::alloc::Global;

fn listed_items(
    alloc: Global,
    owner: u32,
    segments: &[Segment],
    listed: &[u32],
) -> Result<Items, Memory>
    ensures { IfOk result (λ items. items ≡ items_of owner segments.now listed.now) }
{
    let mut items = Seq::new(alloc);
    for (i, segment) in segments.iter().enumerate() {
        items.push(Item {
            owner,
            vaddr: segment.vaddr,
            memsz: segment.memsz,
            align: segment.align,
            at: listed.get(i).copied(),
        })?;
    }
    Ok(items)
}

/// What is to be placed for a module with these listed addresses.
pub fn items(
    alloc: Global,
    owner: u32,
    segments: &[Segment],
    listed: &[u32],
) -> Result<Items, Memory>
    requires owner { owner < MAX_MODULES }
    requires sized { All IsSized segments.now }
    ensures items { IfOk result (λ items. items ≡ items_of owner segments.now listed.now) }
    ensures count { IfOk result (λ items. length items ≡ length segments.now) }
    ensures owned { IfOk result (All IsOwned) }
    ensures sizes { IfOk result (All (λ item. 0 < item.memsz)) }
{
    let items = listed_items(alloc, owner, segments, listed)?;
    Ok(items)
}

fn entries(alloc: Global, segments: &[Segment], addrs: &[u32]) -> Result<MapEntries, Memory>
    requires { length addrs.now ≡ length segments.now }
    ensures { IfOk result (λ load_map. load_map ≡ load_map_of segments.now addrs.now) }
{
    let mut load_map = Seq::new(alloc);
    for i in 0..segments.len() {
        let segment = &segments[i];
        load_map.push(MapEntry {
            addr: addrs[i],
            vaddr: segment.vaddr,
            memsz: segment.memsz,
        })?;
    }
    Ok(load_map)
}

/// Where the segments lie.
pub fn load_map(alloc: Global, segments: &[Segment], addrs: &[u32]) -> Result<MapEntries, Memory>
    requires { length addrs.now ≡ length segments.now }
    ensures entries { IfOk result (λ load_map. load_map ≡ load_map_of segments.now addrs.now) }
    ensures mapped { IfOk result (IsMapOf segments.now) }
{
    let load_map = entries(alloc, segments, addrs)?;
    Ok(load_map)
}
