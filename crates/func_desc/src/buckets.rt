//! Entries of addresses, which a function finds in the bucket of its hash.

ghost use Rattle.std.specs.Prelude.{◌≡◌, ◌<◌};
ghost use Rattle.std.specs.Ordering.{eq_by_cmp};
ghost use Rattle.func_desc.specs.Functions.{func_cmp};
ghost use Rattle.func_desc.specs.parts.Buckets.{bucket_of};

use crate::slots::Slots;
use elf_model::Func;
use fd_base::Memory;
use idx_links::Pool;
use std::alloc::{AllocError, Global};
use std::marker::Model;

/// There are at least so many buckets.
const FEWEST: u32 = 4096;

/// Sets the functions of modules apart whose values are the same.
const MODULE_STRIDE: u64 = 0x9e37_79b1;

/// The bucket of a function. An odd number of buckets spreads values that are multiples of a power of two.
fn bucket_of(f: &Func, buckets: u32) -> u32
    requires { 0 < buckets }
    ensures hash { result ≡ bucket_of buckets f.now }
    ensures below { result < buckets }
{
    ((f.value as u64 + f.module as u64 * MODULE_STRIDE) % buckets as u64) as u32
}

fn is_same(f: &Func, g: &Func) -> bool
    ensures { result ≡ eq_by_cmp func_cmp f.now g.now }
{
    f.module == g.module && f.value == g.value
}

/// Each function's address, the newest first.
#[derive(Drop)]
pub(crate) struct Entries {
    /// The owner of an entry is its function's bucket.
    nodes: Pool<(Func, u32)>,
    buckets: u32,
}

impl Model for Entries {
    ghost use Rattle.func_desc.specs.parts.Buckets.{Listed, values, AreBucketed};

    ghost Value = { Listed };

    ghost view = { λ e. record { entries = values e.nodes.order; spare = e.nodes.spare } };

    ghost invariant = { λ e. AreBucketed e.buckets e.nodes };
}

impl Entries {
    ghost use Rattle.std.specs.Prelude.{◌≡◌, ◌+◌, ◌-◌, ◌<◌, ◌≤◌, ◌∷◌, [], IfOk, OnOk, filter, length};
    ghost use Rattle.std.specs.FinMap.{find};
    ghost use Rattle.func_desc.specs.Functions.{func_cmp};
    ghost use Rattle.func_desc.specs.parts.Inside.{is_of_another, AreMarked};

    /// No entries, and room for so many.
    pub(crate) fn new(alloc: Global, room: u32) -> Result<Entries, Memory>
        ensures none { IfOk result (λ e. e.entries ≡ []) }
        ensures room { IfOk result (λ e. room ≤ e.spare) }
    {
        let buckets = room.max(FEWEST) / 2 * 2 + 1;
        let mut nodes = Pool::new(alloc, buckets)?;
        nodes.reserve(room)?;
        Ok(Entries { nodes, buckets })
    }

    /// The address that is entered for a function.
    pub(crate) fn find(&self, f: &Func) -> Option<u32>
        ensures { result ≡ find func_cmp f.now self.now.entries }
    {
        let mut at = self.nodes.first_of(bucket_of(f, self.buckets));
        while let Some(id) = at {
            let (own, addr) = self.nodes.value(id);
            if is_same(f, &own) {
                return Some(addr);
            }
            at = self.nodes.next_of(id);
        }
        None
    }

    /// Makes room for `n` more entries at least.
    pub(crate) fn reserve(&mut self, n: u32) -> Result<(), Memory>
        ensures room { OnOk result (n ≤ self.new.spare) }
        ensures grows { self.old.spare ≤ self.new.spare }
        ensures stays { self.new ≡ record self.old { spare = self.new.spare } }
    {
        if self.nodes.len().checked_add(n).is_none() {
            return Err(AllocError);
        }
        self.nodes.reserve(n)
    }

    /// Enters an address for a function. There is room for it.
    pub(crate) fn enter(&mut self, f: Func, addr: u32)
        requires { 0 < self.old.spare }
        ensures { self.new ≡ record { entries = (f, addr) ∷ self.old.entries; spare = self.old.spare - 1 } }
    {
        let bucket = bucket_of(&f, self.buckets);
        self.nodes.insert_after(None, bucket, (f, addr));
    }

    /// Takes out the entries of a module, and marks the slots of the others alone.
    pub(crate) fn drop_module(&mut self, number: u32, slots: &mut Slots)
        ensures entries { self.new.entries ≡ filter (is_of_another number) self.old.entries }
        ensures spare { self.new.spare + length self.new.entries ≡ self.old.spare + length self.old.entries }
        ensures marked { AreMarked slots.old.base self.new.entries slots.new.marks }
        ensures count { length slots.new.marks ≡ length slots.old.marks }
        ensures stays { slots.new ≡ record slots.old { marks = slots.new.marks } }
    {
        slots.unmark();
        let mut at = self.nodes.first();
        while let Some(id) = at {
            at = self.nodes.next(id);
            let (own, addr) = self.nodes.value(id);
            if own.module == number {
                self.nodes.remove(id);
            } else {
                slots.mark(addr);
            }
        }
    }
}
