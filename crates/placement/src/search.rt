//! The address of one item among held ranges.

ghost use Rattle.std.specs.Prelude.{◌≡◌, ℕ, ◌+◌, ◌%◌, ◌^◌, ◌<◌, ◌≤◌, ◌↔◌, All, Contains, IsTrue, MatchOption, IfSome, IfNone};
ghost use Rattle.placement.specs.Legal.{unit_of, Apart, IsLegal, Chosen, HasNoRoom};
ghost use Rattle.placement.specs.declared.item.Held.{Held};
ghost use Rattle.placement.specs.parts.Rising.{AreRising};

use crate::item::{Held, Item};

/// The modulus of congruence for an alignment.
fn unit(align: u32) -> u64
    ensures value { result ≡ unit_of align }
    ensures low { 16 ≤ result }
    ensures high { result ≤ 4096 }
{
    u64::from(align.max(16).min(4096))
}

/// The least number from `from` on that has the residue.
fn align_up(from: u64, residue: u64, unit: u64) -> u64
    requires from { from < 2 ^ 40 }
    requires unit { unit ≤ 4096 }
    requires residue { residue < unit }
    ensures above { from ≤ result }
    ensures small { result < from + unit }
    ensures congruent { result % unit ≡ residue }
    ensures least { (b : ℕ) → from ≤ b → b % unit ≡ residue → result ≤ b }
{
    let rest = from % unit;
    if rest <= residue {
        from + (residue - rest)
    } else {
        from + (unit - rest) + residue
    }
}

/// Whether `len` bytes from `at` meet no held range.
fn is_apart(held: &[Held], at: u32, len: u32) -> bool
    ensures { IsTrue result ↔ All (Apart at len) held.now }
{
    for range in held {
        let end = u64::from(range.start) + u64::from(range.len);
        if end > u64::from(at) && u64::from(at) + u64::from(len) > u64::from(range.start) {
            return false;
        }
    }
    true
}

/// Whether the address is legal for the item.
fn is_legal(low: u32, high: u32, held: &[Held], item: &Item, at: u32) -> bool
    ensures { IsTrue result ↔ IsLegal low high held.now item.now at }
{
    let unit = unit(item.align);
    at >= low
        && u64::from(at) + u64::from(item.memsz) <= u64::from(high)
        && u64::from(at) % unit == u64::from(item.vaddr) % unit
        && is_apart(held, at, item.memsz)
}

/// The least number from `low` on that has the residue, and from which `len` bytes meet no range.
fn least_apart(low: u32, residue: u64, unit: u64, len: u32, held: &[Held]) -> u64
    requires unit { unit ≤ 4096 }
    requires residue { residue < unit }
    requires rising { AreRising held.now }
    ensures above { low ≤ result }
    ensures small { result < 2 ^ 34 }
    ensures congruent { result % unit ≡ residue }
    ensures apart { All (Apart result len) held.now }
    ensures least { (b : ℕ) → low ≤ b → b % unit ≡ residue → All (Apart b len) held.now → result ≤ b }
{
    let mut at = align_up(u64::from(low), residue, unit);
    for range in held {
        if at + u64::from(len) <= u64::from(range.start) {
            return at;
        }
        let end = u64::from(range.start) + u64::from(range.len);
        at = at.max(align_up(end, residue, unit));
    }
    at
}

/// The least legal address of an item.
fn least_legal(low: u32, high: u32, held: &[Held], item: &Item) -> Option<u32>
    requires { AreRising held.now }
    ensures none { IfNone result ((b : ℕ) → ¬ IsLegal low high held.now item.now b) }
    ensures legal { IfSome result (IsLegal low high held.now item.now) }
    ensures least { IfSome result (λ at. (b : ℕ) → IsLegal low high held.now item.now b → at ≤ b) }
{
    let unit = unit(item.align);
    let residue = u64::from(item.vaddr) % unit;
    let at = least_apart(low, residue, unit, item.memsz, held);
    if at + u64::from(item.memsz) <= u64::from(high) {
        Some(at as u32)
    } else {
        None
    }
}

/// The item's address: the listed one where it is legal, or else the least legal one.
pub fn address_of(low: u32, high: u32, held: &[Held], item: &Item) -> Option<u32>
    requires { AreRising held.now }
    ensures { MatchOption result (HasNoRoom low high held.now item.now) (Chosen low high held.now item.now) }
{
    match item.at {
        Some(at) => {
            if is_legal(low, high, held, item, at) {
                Some(at)
            } else {
                None
            }
        }
        None => least_legal(low, high, held, item),
    }
}
