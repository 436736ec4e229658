//! Registers as instructions read and write them.

ghost use Rattle.std.specs.Prelude.{◌≡◌, ℕ, get_or, ◌<◌, ◌^◌};
ghost use Rattle.a32_machine.specs.parts.Fit.{IsCpu};
ghost use Rattle.a32_machine.specs.Registers as spec;

use crate::cpu::Cpu;

/// What is true of each cpu, for a caller's proof. It does nothing.
pub fn whole(cpu: &Cpu)
    ensures { IsCpu cpu.now }
{
    are_words(&cpu.r);
}

fn are_words(words: &[u32])
    ensures { (i : ℕ) → get_or words.now i 0 < 2 ^ 32 }
{
    let _count = words.len();
}

/// A register as an instruction reads it.
#[inline(always)]
pub fn reg(cpu: &Cpu, n: u8) -> u32
    requires { n < 16 }
    ensures { result ≡ spec.reg cpu.now n }
{
    if n == 15 {
        cpu.r[15].wrapping_add(8)
    } else {
        cpu.r[n as usize]
    }
}

/// Puts a value into a register.
#[inline(always)]
pub fn put_reg(cpu: &mut Cpu, n: u8, v: u32)
    requires { n < 16 }
    ensures { cpu.new ≡ spec.with_reg cpu.old n v }
{
    cpu.r[n as usize] = v;
}

/// Moves on to the next instruction.
#[inline(always)]
pub fn move_on(cpu: &mut Cpu)
    ensures { cpu.new ≡ spec.moved_on cpu.old }
{
    cpu.r[15] = cpu.r[15].wrapping_add(4);
}
