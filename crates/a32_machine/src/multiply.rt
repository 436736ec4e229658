//! Multiplications.

ghost use Rattle.std.specs.Prelude.{◌≡◌, ◌<◌, ◌≤◌, ◌^◌, ◌*◌, ◌+◌};
ghost use Rattle.guest_mem.specs.Memory.{GuestMemory};
ghost use Rattle.a32_machine.specs.Multiplication as spec;

use crate::cpu::{Cpu, StepEnd};
use crate::registers::{move_on, put_reg, reg};
use crate::shifter::bit_of;

/// A product into a register.
#[inline(always)]
fn keep_product(s: bool, d: u8, product: u32, cpu: &mut Cpu) -> StepEnd
    requires { d < 16 }
    ensures { (mem : GuestMemory) → record { end_ = result; cpu = cpu.new; memory = mem } ≡ spec.product_kept s d product cpu.old mem }
{
    move_on(cpu);
    if s {
        cpu.n = bit_of(product, 31);
        cpu.z = product == 0;
    }
    put_reg(cpu, d, product);
    StepEnd::Next
}

/// `m` times `s2`.
#[inline(always)]
#[tactic(auto, unfolding(crate::specs::Multiplication::multiplied))]
pub fn multiply(s: bool, d: u8, s2: u8, m: u8, cpu: &mut Cpu) -> StepEnd
    requires d { d < 16 }
    requires s2 { s2 < 16 }
    requires m { m < 16 }
    ensures { (mem : GuestMemory) → record { end_ = result; cpu = cpu.new; memory = mem } ≡ spec.multiplied s d s2 m cpu.old mem }
{
    let product = reg(cpu, m).wrapping_mul(reg(cpu, s2));
    keep_product(s, d, product, cpu)
}

/// `m` times `s2` plus `n`.
#[inline(always)]
#[tactic(auto, unfolding(crate::specs::Multiplication::multiplied_and_added))]
pub fn multiply_add(s: bool, d: u8, n: u8, s2: u8, m: u8, cpu: &mut Cpu) -> StepEnd
    requires d { d < 16 }
    requires n { n < 16 }
    requires s2 { s2 < 16 }
    requires m { m < 16 }
    ensures { (mem : GuestMemory) → record { end_ = result; cpu = cpu.new; memory = mem } ≡ spec.multiplied_and_added s d n s2 m cpu.old mem }
{
    let product = reg(cpu, m)
        .wrapping_mul(reg(cpu, s2))
        .wrapping_add(reg(cpu, n));
    keep_product(s, d, product, cpu)
}

/// The product of two words, or of two signed words, in 64 bits.
fn long_product(kind: u8, a: u32, b: u32) -> u64
    ensures { result ≡ spec.long_product kind a b }
{
    if kind < 2 {
        a as u64 * b as u64
    } else {
        (a.cast_signed() as i64 * b.cast_signed() as i64).cast_unsigned()
    }
}

#[inline(never)]
fn long_result(kind: u8, a: u32, b: u32, held: u64) -> u64
    ensures { result ≡ spec.long_result kind a b held }
{
    let product = long_product(kind, a, b);
    if kind % 2 == 1 {
        product.wrapping_add(held)
    } else {
        product
    }
}

/// A multiplication into 64 bits, of `m` by `s2` into `hi` and `lo`. The kinds are those of `Op::Long`.
#[derive(Clone, Copy)]
pub struct LongMultiplication {
    pub kind: u8,
    /// Whether it sets the flags.
    pub s: bool,
    pub hi: u8,
    pub lo: u8,
    pub s2: u8,
    pub m: u8,
}

/// `m` times `s2` in 64 bits, with what the registers hold added in the kinds 1 and 3.
#[inline(always)]
#[tactic(auto, unfolding(crate::specs::Multiplication::multiplied_long))]
pub fn multiply_long(long: LongMultiplication, cpu: &mut Cpu) -> StepEnd
    requires hi { long.hi < 16 }
    requires lo { long.lo < 16 }
    requires s2 { long.s2 < 16 }
    requires m { long.m < 16 }
    ensures { (mem : GuestMemory) → record { end_ = result; cpu = cpu.new; memory = mem }
        ≡ spec.multiplied_long long.kind long.s long.hi long.lo long.s2 long.m cpu.old mem }
{
    let LongMultiplication {
        kind,
        s,
        hi,
        lo,
        s2,
        m,
    } = long;
    let held = reg(cpu, hi) as u64 * 0x1_0000_0000 + reg(cpu, lo) as u64;
    let product = long_result(kind, reg(cpu, m), reg(cpu, s2), held);
    let high = (product / 0x1_0000_0000) as u32;
    let low = (product % 0x1_0000_0000) as u32;
    move_on(cpu);
    if s {
        cpu.n = bit_of(high, 31);
        cpu.z = product == 0;
    }
    put_reg(cpu, lo, low);
    put_reg(cpu, hi, high);
    StepEnd::Next
}
