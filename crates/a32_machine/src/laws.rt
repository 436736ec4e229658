//! What holds of steps themselves. Nothing here runs.

ghost use Rattle.std.specs.Prelude.{◌≡◌, ◌%◌};
ghost use Rattle.guest_mem.specs.Memory.{GuestMemory, IsBytes};
ghost use Rattle.guest_mem.specs.parts.Kept.{SameMap};
ghost use Rattle.a32_machine.specs.declared.cpu.Cpu.{Cpu};
ghost use Rattle.a32_machine.specs.Registers.{pc_of};
ghost use Rattle.a32_machine.specs.Step.{step_of};
ghost use Rattle.a32_machine.specs.parts.Fit.{IsCpu, IsFit};
ghost use Rattle.a32_machine.specs.parts.Frame.{Frames};
ghost use Rattle.a32_machine.specs.parts.Depends.{SameBytes, StepsAlike, next_fetch, next_loads};
ghost use Rattle.a32_machine.specs.parts.Entries.{EntryArrives, LazyPlaceArrives};

/// A step keeps what is watched and what isn't Data, and one that stops keeps all.
pub fn frames()
    ensures { (cpu : Cpu) (m : GuestMemory) → Frames cpu m (step_of cpu m) }
{}

/// Sixteen registers below 2^32 and bytes below 256 stay so, and r15 stays a multiple of 4.
pub fn fits()
    ensures fit { (cpu : Cpu) (m : GuestMemory) → IsCpu cpu → IsBytes m → IsFit (step_of cpu m) }
    ensures aligned { (cpu : Cpu) (m : GuestMemory) → IsCpu cpu → IsBytes m → pc_of cpu % 4 ≡ 0 → pc_of (step_of cpu m).cpu % 4 ≡ 0 }
{}

/// A step depends on the registers and flags, the bytes that it fetches and loads, and the map and marks of memory.
pub fn depends_on()
    ensures { (cpu : Cpu) (m n : GuestMemory) → SameMap m n → SameBytes m n (next_fetch cpu) → SameBytes m n (next_loads cpu m) →
        StepsAlike m n (step_of cpu m) (step_of cpu n) }
{}

/// From the first four words of an entry of the procedure linkage table, four steps lead to the bound function.
pub fn entry_arrives()
    ensures { EntryArrives }
{}

/// From the four words of its lazy place, four steps lead to the resolver.
pub fn lazy_place_arrives()
    ensures { LazyPlaceArrives }
{}
