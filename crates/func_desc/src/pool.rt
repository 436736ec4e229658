//! The addresses of descriptors.

use crate::buckets::Entries;
use crate::slots::Slots;
use elf_model::Func;
use fd_base::Memory;
use std::alloc::{AllocError, Global};
use std::marker::Model;

/// No slot is free.
#[derive(Clone, Copy, Debug, PartialEq, Eq)]
pub struct Full;

/// The address of each function's descriptor: a slot of the pool's own, or an address elsewhere that was
/// adopted.
#[derive(Drop)]
pub struct DescPool {
    slots: Slots,
    entries: Entries,
}

impl Model for DescPool {
    ghost use Rattle.std.specs.Prelude.{◌-◌, length};
    ghost use Rattle.func_desc.specs.Pool.{Pool, pool_code};
    ghost use Rattle.func_desc.specs.parts.Inside.{addrs_of, IsKept};

    ghost Value = { Pool };

    ghost coded = { pool_code };

    ghost view = { λ p. record {
      base = p.slots.base;
      slots = length p.slots.marks;
      addrs = addrs_of p.entries.entries;
      room = p.entries.spare - length p.slots.free;
    } };

    ghost invariant = { λ p. IsKept p.slots.base (length p.slots.marks) p.entries.entries p.slots.free p.entries.spare };
}

impl DescPool {
    ghost use Rattle.std.specs.Prelude.{◌≡◌, ◌≢◌, ◌+◌, ◌-◌, ◌*◌, ◌^◌, ◌<◌, ◌≤◌, length, drop, slice_get, Some, None, IfOk, IfSome, IfNone, OnOk, OnErr, OnSome};
    ghost use Rattle.std.specs.FinMap.{get, insert, empty, len};
    ghost use Rattle.elf_model.specs.declared.func.Func.{Func};
    ghost use Rattle.func_desc.specs.Pool.{IsSlot, free_slots, address_for};
    ghost use Rattle.func_desc.specs.parts.Dropped.{AreDropped};

    /// A pool of `slots` slots of 8 bytes, the first of which is at `base`. No function has an address.
    pub fn new(alloc: Global, base: u32, slots: u32) -> Result<DescPool, Memory>
        requires { base + 8 * slots < 2 ^ 32 }
        ensures { IfOk result (λ p. p ≡ record { base = base; slots = slots; addrs = empty; room = p.room }) }
    {
        Ok(DescPool {
            slots: Slots::new(alloc, base, slots)?,
            entries: Entries::new(alloc, slots)?,
        })
    }

    /// The address of a function's descriptor. No other function has it.
    pub fn get(&self, f: &Func) -> Option<u32>
        ensures value { result ≡ get self.now.addrs f.now }
        ensures distinct { IfSome result (λ a. (g : Func) → get self.now.addrs g ≡ Some a → g ≡ f.now) }
    {
        self.entries.find(f)
    }

    /// How many slots are free.
    pub fn free(&self) -> u32
        ensures { result ≡ length (free_slots self.now) }
    {
        self.slots.count()
    }

    /// The address of the free slot with `n` free ones below it: the one that `ensure` gives to the next
    /// function but `n` that has no address. None where there are no more than `n` free slots.
    pub fn free_at(&self, n: u32) -> Option<u32>
        ensures { result ≡ slice_get (free_slots self.now) n }
    {
        self.slots.get(n)
    }

    /// Makes room for `n` adoptions at least.
    pub fn reserve(&mut self, n: u32) -> Result<(), Memory>
        ensures room { OnOk result (n ≤ self.new.room) }
        ensures grows { self.old.room ≤ self.new.room }
        ensures stays { self.new ≡ record self.old { room = self.new.room } }
    {
        match self.slots.count().checked_add(n) {
            Some(room) => self.entries.reserve(room),
            None => Err(AllocError),
        }
    }

    /// Gives a function without an address this one, which is no slot's and no other function's. Takes no
    /// memory, and one of the room.
    pub fn adopt(&mut self, f: &Func, addr: u32)
        requires fresh { get self.old.addrs f.now ≡ None }
        requires unused { (g : Func) → get self.old.addrs g ≢ Some addr }
        requires no_slot { ¬ IsSlot self.old addr }
        requires room { 0 < self.old.room }
        ensures adopted { self.new ≡ record self.old { addrs = insert self.old.addrs f.now addr; room = self.new.room } }
        ensures room { self.old.room ≤ self.new.room + 1 }
        ensures free { free_slots self.new ≡ free_slots self.old }
    {
        self.entries.enter(*f, addr);
    }

    /// A function's address. Where it has none it gets the lowest free slot; `Full` comes exactly where it has
    /// none and no slot is free. Takes no memory.
    pub fn ensure(&mut self, f: &Func) -> Result<u32, Full>
        ensures address { IfOk result (λ a. address_for self.old f.now ≡ Some a) }
        ensures full { OnErr result (address_for self.old f.now ≡ None) }
        ensures had { OnSome (get self.old.addrs f.now) (self.new ≡ self.old) }
        ensures given { IfNone (get self.old.addrs f.now) (IfOk result (λ a. self.new ≡ record self.old { addrs = insert self.old.addrs f.now a })) }
        ensures rest { IfNone (get self.old.addrs f.now) (OnOk result (free_slots self.new ≡ drop 1 (free_slots self.old))) }
        ensures stays { OnErr result (self.new ≡ self.old) }
    {
        if let Some(addr) = self.get(f) {
            return Ok(addr);
        }
        let Some(addr) = self.slots.take() else {
            return Err(Full);
        };
        self.entries.enter(*f, addr);
        Ok(addr)
    }

    /// Takes out the functions of a module. Their slots are free from then on. Takes no memory.
    pub fn drop_module(&mut self, number: u32)
        ensures dropped { AreDropped number self.old.addrs self.new.addrs }
        ensures stays { self.new ≡ record self.old { addrs = self.new.addrs; room = self.new.room } }
        ensures room { self.new.room + length (free_slots self.new) + len self.new.addrs ≡ self.old.room + length (free_slots self.old) + len self.old.addrs }
        ensures grows { self.old.room ≤ self.new.room }
    {
        self.entries.drop_module(number, &mut self.slots);
        self.slots.free_unmarked();
    }
}
