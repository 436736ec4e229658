//! Which slots are unbound.

ghost use Rattle.std.specs.Prelude.{◌≡◌, ◌&&◌, ◌<◌, length, IfOk, IfSome};
ghost use Rattle.elf_model.specs.Sound.{IsSound};
ghost use Rattle.load_model.specs.Unbound as spec;
ghost use Rattle.load_model.specs.Unbound.{may_wait};

use crate::module::{Flags, SlotOf, SymbolicProcess};
use elf_model::Object;
use fd_base::{Memory, Seq};
use plt_code::lazy_place;
use std::alloc::Global;
use symbol_scope::MAX_MODULES;

/// Whether slot `k` of a new module is unbound.
fn waits_at_first(lazy: bool, o: &Object, k: u32) -> bool
    requires { IsSound o.now }
    ensures { result ≡ (lazy && may_wait o.entry.now k) }
{
    lazy && !o.now && lazy_place(o, k).is_some()
}

/// The flags of a new module: with `lazy` each slot is unbound that may wait, and otherwise none.
pub fn unbound_at_first(alloc: Global, lazy: bool, o: &Object) -> Result<Flags, Memory>
    requires { IsSound o.now }
    ensures { IfOk result (λ flags. flags ≡ spec.unbound_at_first lazy o.entry.now) }
{
    let mut flags = Seq::new(alloc);
    for k in 0..o.jmprels.len() as u32 {
        flags.push(waits_at_first(lazy, o, k))?;
    }
    Ok(flags)
}

/// Whether the flag of slot `k` is set. Past the last one none is.
pub fn is_set(flags: &[bool], k: u32) -> bool
    ensures { result ≡ spec.is_set flags.now k }
{
    match flags.get(k as usize) {
        Some(flag) => *flag,
        None => false,
    }
}

/// The place of the first flag that is set.
fn first_set(flags: &[bool]) -> Option<usize>
    ensures value { result ≡ spec.first_set flags.now }
    ensures within { IfSome result (λ k. k < length flags.now) }
{
    flags.iter().position(|flag| *flag)
}

impl SymbolicProcess {
    ghost use Rattle.std.specs.Prelude.{◌≡◌, ◌^◌, ◌≤◌, ℕ, length};
    ghost use Rattle.load_model.specs.Unbound.{first_set, is_unbound, next_unbound, unbound_of};

    /// The flags of a live module: which of its slots are unbound.
    pub fn unbound(&self, m: u32) -> &[bool]
        ensures { result.now ≡ unbound_of self.now m }
    {
        match self.live_at(m) {
            Some(live) => live.unbound.as_slice(),
            None => &[],
        }
    }

    /// Whether slot `k` of module `m` is unbound. None is where there is no such slot.
    pub fn is_unbound(&self, m: u32, k: u32) -> bool
        ensures { result ≡ is_unbound self.now m k }
    {
        is_set(self.unbound(m), k)
    }

    /// The first unbound slot of a module.
    fn first_unbound(&self, m: u32) -> Option<u32>
        requires { length (unbound_of self.now m) ≤ 2 ^ 32 }
        ensures { result ≡ first_set (unbound_of self.now m) }
    {
        match first_set(self.unbound(m)) {
            Some(k) => Some(k as u32),
            None => None,
        }
    }

    /// The first unbound slot: of the lowest module that has one, the lowest. None exactly where every slot is bound.
    pub fn next_unbound(&self) -> Option<SlotOf>
        requires { (m : ℕ) → length (unbound_of self.now m) ≤ 2 ^ 32 }
        ensures { result ≡ next_unbound self.now }
    {
        for m in 0..MAX_MODULES {
            if let Some(slot) = self.first_unbound(m) {
                return Some(SlotOf { module: m, slot });
            }
        }
        None
    }
}
