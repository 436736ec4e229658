//! The ranges that are held, and the plan of more.

ghost use Rattle.std.specs.Prelude.{◌≡◌, ◌+◌, ◌-◌, ◌^◌, ◌<◌, ◌≤◌, [], length, All, IfOk, IfErr, OnOk, filter, insert, not, ◌==◌};
ghost use Rattle.std.specs.List.{AllZip};
ghost use Rattle.placement.specs.Placed.{LiesWithin, Placed};
ghost use Rattle.placement.specs.Space.{Space, IsOwned, held_with, all_held, IsPlaced};
ghost use Rattle.placement.specs.parts.Refusals.{RefusesItems};
ghost use Rattle.placement.specs.parts.Rising.{AreRising};

use crate::extents::{Extent, drop_owner, hold_all, listed};
use crate::item::{Addrs, Held, Item, Items};
use crate::search::address_of;
use fd_base::{Memory, Seq};
use idx_links::Pool;
use std::alloc::{AllocError, AllocFailed, Global};
use std::marker::Model;

/// Why items can't be placed.
#[derive(Debug, Drop)]
pub enum PlaceErr {
    /// The first item, counted from 0, whose listed address isn't legal or that has no legal address.
    NoRoom(u32),
    /// Memory is wanted.
    Memory,
}

impl From<AllocError> for PlaceErr {
    ghost use Rattle.std.specs.Prelude.{◌≡◌};
    ghost use Rattle.placement.specs.declared.ranges.PlaceErr.TheVariants.{Memory};

    ghost from_gives = { λ _ e. e ≡ Memory };

    fn from(_error: AllocError) -> Self {
        PlaceErr::Memory
    }
}

impl<T: Drop> From<AllocFailed<T>> for PlaceErr {
    ghost use Rattle.std.specs.Prelude.{◌≡◌};
    ghost use Rattle.placement.specs.declared.ranges.PlaceErr.TheVariants.{Memory};

    ghost from_gives = { λ _ e. e ≡ Memory };

    fn from(_error: AllocFailed<T>) -> Self {
        PlaceErr::Memory
    }
}

/// The numbers below this one are owners.
const OWNERS: u32 = 512;

/// The held ranges between a low and a high address: nodes by rising start, with a chain for each owner.
#[derive(Drop)]
pub struct Ranges {
    alloc: Global,
    low: u32,
    high: u32,
    held: Pool<Extent>,
}

impl Model for Ranges {
    ghost use Rattle.placement.specs.Space.{Space};
    ghost use Rattle.placement.specs.parts.Extents.{ranges_of, AreKept};

    ghost Value = { Space };

    ghost view = { λ r. record {
      low = r.low;
      high = r.high;
      held = ranges_of r.held;
      room = r.held.spare;
    } };

    ghost invariant = { λ r. AreKept r.held };
}

impl Ranges {
    /// No range is held between the addresses `low` and `high`.
    pub fn new(alloc: Global, low: u32, high: u32) -> Result<Ranges, Memory>
        ensures { IfOk result (λ r. r ≡ record { low = low; high = high; held = []; room = r.room }) }
    {
        Ok(Ranges {
            alloc,
            low,
            high,
            held: Pool::new(alloc, OWNERS)?,
        })
    }

    /// The items' addresses: the listed ones, and else the lowest that are legal, one item after another.
    /// Nothing is held yet, but `take` has the room that it needs. `NoRoom` names the first item without
    /// an address. After an error the ranges are as before. The room never shrinks, whatever the answer.
    pub fn plan(&mut self, items: &Items) -> Result<Addrs, PlaceErr>
        requires owners { All IsOwned items.now }
        requires few { length self.old.held + length items.now < 2 ^ 32 }
        requires sizes { All (λ item. 0 < item.memsz) items.now }
        ensures placed { IfOk result (IsPlaced self.old items.now) }
        ensures inside { IfOk result (AllZip (LiesWithin self.old.low self.old.high) items.now) }
        ensures count { IfOk result (λ addrs. length addrs ≡ length items.now) }
        ensures refused { IfErr result (RefusesItems self.old.low self.old.high self.old.held items.now) }
        ensures room { OnOk result (length items.now ≤ self.new.room) }
        ensures grows { self.old.room ≤ self.new.room }
        ensures stays { self.new ≡ record self.old { room = self.new.room } }
    {
        let mut taken = listed(self.alloc, &self.held)?;
        let addrs = addresses(self.low, self.high, &mut taken, items.as_slice())?;
        self.held.reserve(items.len() as u32)?;
        Ok(Seq::from_vec(addrs))
    }

    /// Holds the ranges of items at the addresses that `plan` answered for them. It takes no memory.
    pub fn take(&mut self, items: &Items, addrs: &Addrs)
        requires owners { All IsOwned items.now }
        requires planned { IsPlaced self.old items.now addrs.now }
        requires room { length items.now ≤ self.old.room }
        ensures held { self.new ≡ record self.old { held = all_held items.now addrs.now self.old.held; room = self.old.room - length items.now } }
        ensures count { length self.new.held ≡ length self.old.held + length items.now }
    {
        hold_all(&mut self.held, items.as_slice(), addrs.as_slice());
    }

    /// Lets go of the ranges of one owner, and of no other. It takes no memory.
    pub fn release(&mut self, owner: u32)
        requires { owner < 512 }
        ensures held { self.new ≡ record self.old { held = filter (λ r. not (r.owner == owner)) self.old.held; room = self.new.room } }
        ensures room { self.new.room + length self.new.held ≡ self.old.room + length self.old.held }
        ensures count { length self.new.held ≤ length self.old.held }
    {
        drop_owner(&mut self.held, owner);
    }
}

/// Where the range goes by its start.
fn place_of(held: &[Held], range: &Held) -> usize
    ensures within { result ≤ length held.now }
    ensures place { held_with range.now held.now ≡ insert held.now result range.now }
{
    for (i, first) in held.iter().enumerate() {
        if first.start >= range.start {
            return i;
        }
    }
    held.len()
}

/// Holds one more range, in its place by start.
fn hold(held: &mut Vec<Held>, range: Held) -> Result<(), Memory>
    ensures { OnOk result (held.new.items ≡ held_with range held.old.items) }
{
    let place = place_of(held, &range);
    held.insert(place, range)?;
    Ok(())
}

/// The items' addresses, where `taken` is held, and each item's range from then on.
fn addresses(
    low: u32,
    high: u32,
    taken: &mut Vec<Held>,
    items: &[Item],
) -> Result<Vec<u32>, PlaceErr>
    requires few { length items.now < 2 ^ 32 }
    requires rising { AreRising taken.old.items }
    ensures placed { IfOk result (λ addrs. Placed low high taken.old.items items.now addrs.items) }
    ensures inside { IfOk result (λ addrs. AllZip (LiesWithin low high) items.now addrs.items) }
    ensures count { IfOk result (λ addrs. length addrs.items ≡ length items.now) }
    ensures refused { IfErr result (RefusesItems low high taken.old.items items.now) }
{
    let mut addrs = Vec::new(*taken.allocator());
    for (i, item) in items.iter().enumerate() {
        match address_of(low, high, taken, item) {
            None => return Err(PlaceErr::NoRoom(i as u32)),
            Some(at) => {
                addrs.push(at)?;
                let range = Held {
                    owner: item.owner,
                    start: at,
                    len: item.memsz,
                };
                hold(taken, range)?;
            }
        }
    }
    Ok(addrs)
}
