//! The addresses of descriptors that functions get in a load.

ghost use Rattle.std.specs.Prelude.{◌≡◌, ◌≢◌, ◌∷◌, [], ◌+◌, ◌<◌, ◌≤◌, ℕ, length, drop, slice_get, Some, None, IfNone};
ghost use Rattle.std.specs.FinMap.{get};
ghost use Rattle.elf_model.specs.declared.func.Func.{Func};
ghost use Rattle.func_desc.specs.Pool.{IsSlot, free_slots};
ghost use Rattle.mod_load.specs.parts.EnteredAddresses.{AreEntered, AreNext, CanBeAdopted};

use elf_model::Func;
use func_desc::DescPool;

/// Gives a function an address that is no slot's, unless it has one.
fn adopt(pool: &mut DescPool, f: &Func, addr: u32)
    requires unused { get pool.old.addrs f.now ≡ None → (g : Func) → get pool.old.addrs g ≢ Some addr }
    requires no_slot { ¬ IsSlot pool.old addr }
    requires room { 0 < pool.old.room }
    ensures entered { AreEntered ((f.now, addr) ∷ []) pool.old pool.new }
    ensures free { free_slots pool.new ≡ free_slots pool.old }
    ensures room { pool.old.room ≤ pool.new.room + 1 }
{
    if pool.get(f).is_none() {
        pool.adopt(f, addr);
    }
}

/// Gives functions addresses that are no slots', unless they have one. Of several entries of one function the first
/// counts. Takes no memory.
pub(crate) fn adopt_all(pool: &mut DescPool, adopted: &[(Func, u32)])
    requires free { CanBeAdopted adopted.now pool.old }
    requires room { length adopted.now ≤ pool.old.room }
    ensures entered { AreEntered adopted.now pool.old pool.new }
    ensures free { free_slots pool.new ≡ free_slots pool.old }
{
    for entry in adopted {
        adopt(pool, &entry.0, entry.1);
    }
}

/// Gives a function without an address the lowest free slot. There is one.
fn give(pool: &mut DescPool, f: &Func)
    requires fresh { get pool.old.addrs f.now ≡ None }
    requires some { 0 < length (free_slots pool.old) }
    ensures entered { (addr : ℕ) → slice_get (free_slots pool.old) 0 ≡ Some addr → AreEntered ((f.now, addr) ∷ []) pool.old pool.new }
    ensures free { free_slots pool.new ≡ drop 1 (free_slots pool.old) }
{
    match pool.ensure(f) {
        Ok(_) => {}
        Err(_) => unreachable!(),
    }
}

/// Gives functions the lowest free slots in order, which stand beside them. Takes no memory.
pub(crate) fn give_all(pool: &mut DescPool, given: &[(Func, u32)])
    requires { AreNext given.now pool.old }
    ensures { AreEntered given.now pool.old pool.new }
{
    for entry in given {
        give(pool, &entry.0);
    }
}
