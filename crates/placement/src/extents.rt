//! Held ranges as nodes of a pool, by rising start.

ghost use Rattle.std.specs.Prelude.{◌≡◌, ◌==◌, ◌+◌, ◌<◌, ◌≤◌, All, IfOk, IfSome, filter, length, map, not};
ghost use Rattle.idx_links.specs.parts.Nodes.{IsLive, Node, inserted_after};
ghost use Rattle.placement.specs.Space.{all_held, held_with};
ghost use Rattle.placement.specs.declared.extents.Extent.{Extent};
ghost use Rattle.placement.specs.parts.Extents.{range_of, ranges_of};

use crate::item::{Held, Item};
use fd_base::Memory;
use idx_links::Pool;
use std::alloc::Global;

/// What a node holds: a range without its owner.
#[derive(Clone, Copy)]
pub(crate) struct Extent {
    /// The placed address of its first byte.
    pub(crate) start: u32,
    /// How many bytes are held from the start on.
    pub(crate) len: u32,
}

/// The ranges of all nodes, in order.
pub(crate) fn listed(alloc: Global, held: &Pool<Extent>) -> Result<Vec<Held>, Memory>
    ensures { IfOk result (λ list. list.items ≡ ranges_of held.now) }
{
    let mut list = Vec::new(alloc);
    let mut next = held.first();
    while let Some(id) = next {
        let Extent { start, len } = held.value(id);
        list.push(Held {
            owner: held.owner(id),
            start,
            len,
        })?;
        next = held.next(id);
    }
    Ok(list)
}

/// The last node that starts below the range, behind which the range goes.
fn last_below(held: &Pool<Extent>, range: &Held) -> Option<u32>
    ensures live { IfSome result (IsLive held.now) }
    ensures place { (node : Node Extent) → range_of node ≡ range.now →
        map range_of (inserted_after (λ other. other.id) result node held.now.order) ≡ held_with range.now (ranges_of held.now) }
{
    let mut last = None;
    let mut next = held.first();
    while let Some(id) = next {
        if held.value(id).start >= range.start {
            return last;
        }
        last = next;
        next = held.next(id);
    }
    last
}

/// Holds one more range, in its place by start.
fn hold(held: &mut Pool<Extent>, range: Held)
    requires owner { range.owner < length held.old.chains }
    requires room { 0 < held.old.spare }
    ensures held { ranges_of held.new ≡ held_with range (ranges_of held.old) }
    ensures spare { held.new.spare + 1 ≡ held.old.spare }
    ensures owners { length held.new.chains ≡ length held.old.chains }
{
    let last = last_below(held, &range);
    let Held { owner, start, len } = range;
    held.insert_after(last, owner, Extent { start, len });
}

/// Holds the ranges of items at their addresses.
pub(crate) fn hold_all(held: &mut Pool<Extent>, items: &[Item], addrs: &[u32])
    requires length { length addrs.now ≡ length items.now }
    requires owned { All (λ item. item.owner < length held.old.chains) items.now }
    requires room { length items.now ≤ held.old.spare }
    ensures held { ranges_of held.new ≡ all_held items.now addrs.now (ranges_of held.old) }
    ensures spare { held.new.spare + length items.now ≡ held.old.spare }
    ensures owners { length held.new.chains ≡ length held.old.chains }
{
    for i in 0..items.len() {
        let item = items[i];
        hold(
            held,
            Held {
                owner: item.owner,
                start: addrs[i],
                len: item.memsz,
            },
        );
    }
}

/// Lets go of the ranges of one owner.
#[tactic(auto, using(crate::proofs::Holding::ranges_others))]
pub(crate) fn drop_owner(held: &mut Pool<Extent>, owner: u32)
    requires { owner < length held.old.chains }
    ensures held { ranges_of held.new ≡ filter (λ r. not (r.owner == owner)) (ranges_of held.old) }
    ensures total { length held.new.order + held.new.spare ≡ length held.old.order + held.old.spare }
    ensures owners { length held.new.chains ≡ length held.old.chains }
{
    held.remove_owner(owner);
}
