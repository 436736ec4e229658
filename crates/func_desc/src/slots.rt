//! Slots by number, and which of them are free.

ghost use Rattle.std.specs.Prelude.{◌≡◌, ◌≢◌, ◌+◌, ◌*◌, ◌^◌, ◌<◌, ◌≤◌, ◌∷◌, ◌++◌, [], ℕ, MatchOption, length, vec_len, vec_capacity};
ghost use Rattle.func_desc.specs.Pool.{slot_addr};
ghost use Rattle.func_desc.specs.parts.Slots.{unmarked};

use fd_base::Memory;
use std::alloc::Global;
use std::marker::Model;

/// The size of a descriptor, in bytes: the words of a function's address and of its GOT.
pub const DESCRIPTOR_SIZE: u32 = 8;

/// Where a slot is.
fn slot_addr(base: u32, i: usize) -> u32
    requires { base + 8 * i < 2 ^ 32 }
    ensures { result ≡ slot_addr base i }
{
    base + DESCRIPTOR_SIZE * i as u32
}

/// Which of so many slots is at an address.
fn slot_at(base: u32, slots: usize, addr: u32) -> Option<usize>
    ensures { MatchOption result ((i : ℕ) → i < slots → addr ≢ slot_addr base i) (λ i. (i < slots) × (addr ≡ slot_addr base i)) }
{
    if addr < base || (addr - base) % DESCRIPTOR_SIZE != 0 {
        return None;
    }
    let i = ((addr - base) / DESCRIPTOR_SIZE) as usize;
    if i < slots { Some(i) } else { None }
}

/// Adds an address to a list with room for it.
fn put(listed: &mut Vec<u32>, addr: u32)
    requires { vec_len listed.old < vec_capacity listed.old }
    ensures items { listed.new.items ≡ listed.old.items ++ addr ∷ [] }
    ensures len { vec_len listed.new ≡ vec_len listed.old + 1 }
    ensures capacity { vec_capacity listed.old ≤ vec_capacity listed.new }
{
    match listed.push(addr) {
        Ok(()) => {}
        Err(_) => unreachable!(),
    }
}

/// Lists the addresses of the slots without a mark, the lowest first. The list has room for all.
fn list_unmarked(listed: &mut Vec<u32>, base: u32, marks: &[bool])
    requires end { base + 8 * length marks.now < 2 ^ 32 }
    requires room { length marks.now ≤ vec_capacity listed.old }
    ensures items { listed.new.items ≡ unmarked base 0 marks.now }
    ensures len { vec_len listed.new ≤ length marks.now }
    ensures capacity { vec_capacity listed.old ≤ vec_capacity listed.new }
{
    listed.clear();
    for (i, marked) in marks.iter().enumerate() {
        if !*marked {
            put(listed, slot_addr(base, i));
        }
    }
}

/// Slots of which some are free, and a mark for each. Only `new` takes memory.
#[derive(Drop)]
pub(crate) struct Slots {
    base: u32,
    marks: Vec<bool>,
    /// The slots that were free when they were listed, the lowest first.
    listed: Vec<u32>,
    /// How many of these are taken.
    taken: usize,
}

impl Model for Slots {
    ghost use Rattle.std.specs.Prelude.{drop, vec_len, vec_capacity};
    ghost use Rattle.func_desc.specs.parts.Slots.{Slots, IsListed};

    ghost Value = { Slots };

    ghost view = { λ s. record {
      base = s.base;
      marks = s.marks.items;
      free = drop s.taken s.listed.items;
    } };

    ghost invariant = { λ s. IsListed s.base s.marks.items (vec_len s.listed) (vec_capacity s.listed) s.taken };
}

impl Slots {
    ghost use Rattle.std.specs.Prelude.{◌≡◌, ◌+◌, ◌*◌, ◌^◌, ◌<◌, ◌==◌, ◌||◌, ℕ, IfOk, drop, false, length, map, replicate, slice_get, slice_index_or};
    ghost use Rattle.std.specs.List.{range_with_len};
    ghost use Rattle.func_desc.specs.Pool.{slot_addr};
    ghost use Rattle.func_desc.specs.parts.Slots.{unmarked};

    /// So many free slots, the first of which is at `base`.
    pub(crate) fn new(alloc: Global, base: u32, slots: u32) -> Result<Slots, Memory>
        requires { base + 8 * slots < 2 ^ 32 }
        ensures { IfOk result (λ s. s ≡ record { base = base; marks = replicate slots false; free = unmarked base 0 (replicate slots false) }) }
    {
        let marks = vec![in alloc; false; slots as usize]?;
        let mut listed = Vec::with_capacity(alloc, marks.len())?;
        list_unmarked(&mut listed, base, &marks);
        Ok(Slots {
            base,
            marks,
            listed,
            taken: 0,
        })
    }

    /// How many slots are free.
    pub(crate) fn count(&self) -> u32
        ensures { result ≡ length self.now.free }
    {
        (self.listed.len() - self.taken) as u32
    }

    /// The free slot with `n` free ones below it.
    pub(crate) fn get(&self, n: u32) -> Option<u32>
        ensures { result ≡ slice_get self.now.free n }
    {
        self.listed.get(self.taken + n as usize).copied()
    }

    /// Takes the lowest free slot.
    pub(crate) fn take(&mut self) -> Option<u32>
        ensures lowest { result ≡ slice_get self.old.free 0 }
        ensures rest { self.new ≡ record self.old { free = drop 1 self.old.free } }
    {
        let addr = self.get(0)?;
        self.taken += 1;
        Some(addr)
    }

    /// Takes all marks away.
    pub(crate) fn unmark(&mut self)
        ensures { self.new ≡ record self.old { marks = replicate (length self.old.marks) false } }
    {
        self.marks.fill(false);
    }

    /// Marks the slot at an address, where there is one.
    pub(crate) fn mark(&mut self, addr: u32)
        ensures stays { self.new ≡ record self.old { marks = self.new.marks } }
        ensures count { length self.new.marks ≡ length self.old.marks }
        ensures marked { (i : ℕ) → i < length self.old.marks → slice_index_or self.new.marks i false ≡ (addr == slot_addr self.old.base i || slice_index_or self.old.marks i false) }
    {
        if let Some(i) = slot_at(self.base, self.marks.len(), addr) {
            self.marks[i] = true;
        }
    }

    /// Makes the slots without a mark the free ones.
    pub(crate) fn free_unmarked(&mut self)
        ensures { self.new ≡ record self.old { free = unmarked self.old.base 0 self.old.marks } }
    {
        list_unmarked(&mut self.listed, self.base, &self.marks);
        self.taken = 0;
    }
}
