//! Values from outside: which addresses items get, and what is refused.

ghost use Rattle.std.specs.Prelude.{◌≡◌, ◌+◌, ◌^◌, ◌<◌, All, OnOk, length};
ghost use Rattle.placement.specs.Space.{IsOwned};

use crate::checks::same;
use fd_base::Seq;
use placement::{Addrs, Item, Items, PlaceErr, Ranges};
use std::alloc::Global;
use std::process::Abort;
use std::test::Fail;

fn item(owner: u32, vaddr: u32, memsz: u32, align: u32, at: Option<u32>) -> Item
    ensures memsz { result.memsz ≡ memsz }
    ensures owner { result.owner ≡ owner }
{
    Item {
        owner,
        vaddr,
        memsz,
        align,
        at,
    }
}

/// The items are placed at these addresses, which are held from then on.
fn places(rt: &impl Abort, ranges: &mut Ranges, items: &Items, wanted: &[u32]) -> Result<(), Fail>
    requires owners { All IsOwned items.now }
    requires few { length ranges.old.held + length items.now < 2 ^ 32 }
    requires sizes { All (λ item. 0 < item.memsz) items.now }
    ensures count { OnOk result (length ranges.new.held ≡ length ranges.old.held + length items.now) }
{
    let addrs = ranges.plan(items)?;
    same(rt, addrs.as_slice(), wanted);
    ranges.take(items, &addrs);
    Ok(())
}

/// This item has no place.
fn has_no_room(rt: &impl Abort, ranges: &mut Ranges, items: &Items, wanted: u32) -> Result<(), Fail>
    requires owners { All IsOwned items.now }
    requires few { length ranges.old.held + length items.now < 2 ^ 32 }
    requires sizes { All (λ item. 0 < item.memsz) items.now }
    ensures held { OnOk result (ranges.new.held ≡ ranges.old.held) }
{
    match ranges.plan(items) {
        Ok(_) => Err("placed")?,
        Err(PlaceErr::NoRoom(i)) => same(rt, i, wanted),
        Err(PlaceErr::Memory) => Err("memory")?,
    }
    Ok(())
}

#[test]
fn lowest_listed_and_released(rt: HostRuntime) -> Result<(), Fail> {
    let alloc = rt.alloc();
    let mut ranges = Ranges::new(alloc, 0x3200, 0xf0000)?;
    let free = [
        item(1, 0x10f0c, 0x20, 0x10000, None),
        item(1, 0, 0x30, 1, None),
    ];
    let free = Seq::from_slice(alloc, &free)?;
    places(&rt, &mut ranges, &free, &[0x3f0c, 0x3200])?;
    let listed = [
        item(2, 0, 4, 1, Some(0x3240)),
        item(2, 0, 4, 1, Some(0x3f10)),
    ];
    let listed = Seq::from_slice(alloc, &listed)?;
    has_no_room(&rt, &mut ranges, &listed, 1)?;
    ranges.release(1);
    places(&rt, &mut ranges, &listed, &[0x3240, 0x3f10])?;
    let large = Seq::from_slice(alloc, &[item(3, 0x3210, 0xecdf1, 16, None)])?;
    has_no_room(&rt, &mut ranges, &large, 0)
}

/// Where these ranges of owners 1 and 2 are held, an item of 0x200 bytes goes to this address once owner 1's are let go of.
fn goes_to(
    rt: &impl Abort,
    alloc: Global,
    low: u32,
    held: &[Item],
    at: &[u32],
    wanted: u32,
) -> Result<(), Fail>
    requires owners { All IsOwned held.now }
    requires few { length held.now + 1 < 2 ^ 32 }
    requires sizes { All (λ item. 0 < item.memsz) held.now }
{
    let mut ranges = Ranges::new(alloc, low, 0xf0000)?;
    let held = Seq::from_slice(alloc, held)?;
    places(rt, &mut ranges, &held, at)?;
    ranges.release(1);
    let new = Seq::from_slice(alloc, &[item(3, 0, 0x200, 1, None)])?;
    places(rt, &mut ranges, &new, &[wanted])
}

#[test]
fn lowest_among_what_stays(rt: HostRuntime) -> Result<(), Fail> {
    let lowest = item(1, 0, 0x100, 1, Some(0x4000));
    let middle = item(2, 0, 0x100, 1, Some(0x5000));
    let highest = item(1, 0, 0x100, 1, Some(0x6000));
    let alloc = rt.alloc();
    goes_to(
        &rt,
        alloc,
        0x3f00,
        &[lowest, middle, highest],
        &[0x4000, 0x5000, 0x6000],
        0x3f00,
    )?;
    goes_to(
        &rt,
        alloc,
        0x4f80,
        &[middle, highest],
        &[0x5000, 0x6000],
        0x5100,
    )
}
