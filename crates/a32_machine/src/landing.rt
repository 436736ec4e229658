//! How a result or a refusal ends an instruction.

ghost use Rattle.std.specs.Prelude.{◌≡◌, ◌<◌, MatchOption};
ghost use Rattle.guest_mem.specs.Memory.{GuestMemory};
ghost use Rattle.a32_machine.specs.Stepped as spec;
ghost use Rattle.a32_machine.specs.Registers.{with_reg};
ghost use Rattle.a32_machine.specs.declared.cpu.Cpu.{Cpu};
ghost use Rattle.a32_machine.specs.declared.cpu.StepEnd.TheVariants.{Stop};

use crate::cpu::{StepEnd, StepStop};
use guest_mem::Access;

/// An access that is refused.
#[inline(always)]
pub fn stop_of(refusal: Access) -> StepEnd
    ensures { result ≡ Stop (spec.stop_of refusal) }
{
    match refusal {
        Access::Unaligned(a) => StepEnd::Stop(StepStop::Unaligned(a)),
        Access::Fault(a) => StepEnd::Stop(StepStop::Fault(a)),
        Access::Stray(a) => StepEnd::Stop(StepStop::Stray(a)),
    }
}

/// Why a result can't go into a register: into r15 goes the address of an instruction alone.
#[inline(always)]
pub fn landing_stop(d: u8, v: u32) -> Option<StepStop>
    ensures { (before next : Cpu) (m : GuestMemory) → MatchOption result (spec.landed before next m d v ≡ spec.went_on (with_reg next d v) m) (λ stop. spec.landed before next m d v ≡ spec.stopped before m stop) }
{
    if d == 15 && v % 4 != 0 {
        Some(StepStop::Unaligned(v))
    } else {
        None
    }
}
