//! The memory of a process without modules.

ghost use Rattle.std.specs.Prelude.{◌≡◌, ℕ, ◌-◌, ◌≤◌, false, None, length, IfOk};
ghost use Rattle.guest_mem.specs.parts.Kept.{SameMap};
ghost use Rattle.guest_mem.specs.Memory.{byte_at, kind_at, is_marked};
ghost use Rattle.load_model.specs.Layout.{IsLaidOut, fixed_kind};
ghost use Rattle.fd_base.specs.Ranges.{is_in};
ghost use Rattle.load_model.specs.Plan.{Fits};
ghost use Rattle.load_memory.specs.parts.Modules.{nothing};
ghost use Rattle.load_memory.specs.parts.Stubs.{HasStubs};

use crate::bytes::fill_words;
use fd_base::Memory;
use guest_mem::{Guest, MemKind};
use load_model::{END_WORDS, LOAD_MAPS, MemPlan, RESOLVER, RESOLVER_WORDS, STUBS_END, THREAD_END};
use std::alloc::Global;

/// Maps the stubs, the load maps with the descriptors, and the stacks.
fn map_fixed(guest: &mut Guest, plan: &MemPlan)
    requires fits { Fits plan.now }
    requires size { length guest.old.bytes ≡ plan.now.memory }
    requires free { (a : ℕ) → kind_at guest.old a ≡ None }
    requires unmarked { (a : ℕ) → is_marked guest.old a ≡ false }
    ensures kinds { (a : ℕ) → kind_at guest.new a ≡ fixed_kind plan.now a }
    ensures marks { (a : ℕ) → is_marked guest.new a ≡ false }
    ensures bytes { guest.new.bytes ≡ guest.old.bytes }
{
    guest.whole();
    let high = plan.high();
    let slots_end = plan.slots_end();
    guest.map(high, plan.memory - high, MemKind::Data);
    guest.map(LOAD_MAPS, slots_end - LOAD_MAPS, MemKind::Fixed);
    guest.map(RESOLVER, STUBS_END - RESOLVER, MemKind::Code);
}

/// Writes the code that stands in every process.
fn put_stubs(guest: &mut Guest)
    requires { STUBS_END ≤ length guest.old.bytes }
    ensures stubs { HasStubs guest.new }
    ensures rest { (a : ℕ) → is_in RESOLVER (STUBS_END - RESOLVER) a ≡ false → byte_at guest.new a ≡ byte_at guest.old a }
    ensures map { SameMap guest.old guest.new }
{
    fill_words(guest, RESOLVER, &RESOLVER_WORDS);
    fill_words(guest, THREAD_END, &END_WORDS);
}

/// The memory of a process without modules: the stubs and zeros.
pub fn new_memory(alloc: Global, plan: &MemPlan) -> Result<Guest, Memory>
    requires { Fits plan.now }
    ensures laid_out { IfOk result (IsLaidOut plan.now nothing) }
    ensures stubs { IfOk result HasStubs }
    ensures clear { IfOk result (λ g. (a : ℕ) → is_in RESOLVER (STUBS_END - RESOLVER) a ≡ false → byte_at g a ≡ 0) }
{
    let mut guest = Guest::new(alloc, plan.memory)?;
    map_fixed(&mut guest, plan);
    put_stubs(&mut guest);
    guest.whole();
    Ok(guest)
}
