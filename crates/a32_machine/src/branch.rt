//! Branches.

ghost use Rattle.std.specs.Prelude.{◌≡◌, ◌<◌, ◌^◌};
ghost use Rattle.guest_mem.specs.Memory.{GuestMemory};
ghost use Rattle.a32_machine.specs.Branches as spec;

use crate::cpu::{Cpu, StepEnd};
use crate::landing::landing_stop;
use crate::registers::{put_reg, reg};

/// Leaves the address of the next instruction in lr.
#[inline(always)]
fn link_back(link: bool, cpu: &mut Cpu)
    ensures { cpu.new ≡ spec.linked link cpu.old }
{
    if link {
        put_reg(cpu, 14, cpu.r[15].wrapping_add(4));
    }
}

#[inline(always)]
fn branch_target(pc: u32, imm24: u32) -> u32
    requires { imm24 < 2 ^ 24 }
    ensures { result ≡ spec.branch_target pc imm24 }
{
    let offset = if imm24 < 0x80_0000 {
        4 * imm24
    } else {
        4 * imm24 + 0xfc00_0000
    };
    pc.wrapping_add(8).wrapping_add(offset)
}

/// Goes to the place that the field names.
#[inline(always)]
pub fn branch(link: bool, imm24: u32, cpu: &mut Cpu) -> StepEnd
    requires { imm24 < 2 ^ 24 }
    ensures { (m : GuestMemory) → record { end_ = result; cpu = cpu.new; memory = m } ≡ spec.branched link imm24 cpu.old m }
{
    let target = branch_target(cpu.r[15], imm24);
    link_back(link, cpu);
    put_reg(cpu, 15, target);
    StepEnd::Next
}

/// Goes to the address that a register holds.
#[inline(always)]
pub fn jump(link: bool, m: u8, cpu: &mut Cpu) -> StepEnd
    requires { m < 16 }
    ensures { (mem : GuestMemory) → record { end_ = result; cpu = cpu.new; memory = mem } ≡ spec.jumped link m cpu.old mem }
{
    let target = reg(cpu, m);
    if let Some(stop) = landing_stop(15, target) {
        return StepEnd::Stop(stop);
    }
    link_back(link, cpu);
    put_reg(cpu, 15, target);
    StepEnd::Next
}
