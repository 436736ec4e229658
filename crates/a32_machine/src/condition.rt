//! When an instruction is obeyed.

ghost use Rattle.std.specs.Prelude.{◌≡◌, ◌<◌};
ghost use Rattle.a32_machine.specs.Condition as spec;

use crate::cpu::Cpu;

/// Whether a condition holds.
#[inline(always)]
pub fn holds(cond: u8, cpu: &Cpu) -> bool
    ensures { result ≡ spec.holds cond cpu.now }
{
    match cond {
        0 => cpu.z,
        1 => !cpu.z,
        2 => cpu.c,
        3 => !cpu.c,
        4 => cpu.n,
        5 => !cpu.n,
        6 => cpu.v,
        7 => !cpu.v,
        8 => cpu.c && !cpu.z,
        9 => !cpu.c || cpu.z,
        10 => cpu.n == cpu.v,
        11 => cpu.n != cpu.v,
        12 => !cpu.z && cpu.n == cpu.v,
        13 => cpu.z || cpu.n != cpu.v,
        _ => true,
    }
}
