//! Data operations, moves of immediates and counts of zeros.

ghost use Rattle.std.specs.Prelude.{◌≡◌, ◌<◌, ◌^◌, ◌*◌};
ghost use Rattle.guest_mem.specs.Memory.{GuestMemory};
ghost use Rattle.a32_isa.specs.Fields.{Fit};
ghost use Rattle.a32_isa.specs.Table.{arg_fields};
ghost use Rattle.a32_machine.specs.DataProcessing as spec;

use crate::arithmetic::{Outcome, added};
use crate::cpu::{Cpu, StepEnd};
use crate::landing::landing_stop;
use crate::registers::{move_on, put_reg, reg};
use crate::shifter::{Shifted, bit_of, operand_of};
use a32_isa::Arg;

#[inline(always)]
fn logical(cpu: &Cpu, b: Shifted, value: u32) -> Outcome
    ensures { result ≡ spec.logical cpu.now b value }
{
    Outcome {
        value,
        carry: b.carry,
        overflow: cpu.v,
    }
}

#[inline(always)]
fn outcome_of(op: u8, cpu: &Cpu, a: u32, b: Shifted) -> Outcome
    ensures { result ≡ spec.outcome_of op cpu.now a b }
{
    match op {
        0 => logical(cpu, b, a & b.value),
        1 => logical(cpu, b, a ^ b.value),
        2 => added(a, !b.value, true),
        3 => added(!a, b.value, true),
        4 => added(a, b.value, false),
        5 => added(a, b.value, cpu.c),
        6 => added(a, !b.value, cpu.c),
        7 => added(!a, b.value, cpu.c),
        8 => logical(cpu, b, a & b.value),
        9 => logical(cpu, b, a ^ b.value),
        10 => added(a, !b.value, true),
        11 => added(a, b.value, false),
        12 => logical(cpu, b, a | b.value),
        13 => logical(cpu, b, b.value),
        14 => logical(cpu, b, a & !b.value),
        _ => logical(cpu, b, !b.value),
    }
}

/// The flags that a result sets, where the instruction says so.
#[inline(always)]
fn set_flags(s: bool, o: Outcome, cpu: &mut Cpu)
    ensures { cpu.new ≡ spec.with_flags s o cpu.old }
{
    if s {
        cpu.n = bit_of(o.value, 31);
        cpu.z = o.value == 0;
        cpu.c = o.carry;
        cpu.v = o.overflow;
    }
}

/// A data operation, of register `n` and the operand, into register `d`.
#[inline(always)]
#[tactic(auto, unfolding(crate::specs::DataProcessing::data_processed))]
pub fn process_data(op: u8, s: bool, n: u8, d: u8, arg: &Arg, cpu: &mut Cpu) -> StepEnd
    requires n { n < 16 }
    requires d { d < 16 }
    requires arg { Fit (arg_fields arg.now) }
    ensures { (m : GuestMemory) → record { end_ = result; cpu = cpu.new; memory = m } ≡ spec.data_processed op s n d arg.now cpu.old m }
{
    let o = outcome_of(op, cpu, reg(cpu, n), operand_of(cpu, arg));
    if 8 <= op && op <= 11 {
        move_on(cpu);
        set_flags(s, o, cpu);
        return StepEnd::Next;
    }
    if let Some(stop) = landing_stop(d, o.value) {
        return StepEnd::Stop(stop);
    }
    move_on(cpu);
    set_flags(s, o, cpu);
    put_reg(cpu, d, o.value);
    StepEnd::Next
}

/// How many zeros stand above the highest one of a register.
#[inline(always)]
pub fn count_zeros(d: u8, m: u8, cpu: &mut Cpu) -> StepEnd
    requires d { d < 16 }
    requires m { m < 16 }
    ensures { (mem : GuestMemory) → record { end_ = result; cpu = cpu.new; memory = mem } ≡ spec.zeros_counted d m cpu.old mem }
{
    let zeros = reg(cpu, m).leading_zeros();
    move_on(cpu);
    put_reg(cpu, d, zeros);
    StepEnd::Next
}

/// An immediate into a register.
#[inline(always)]
pub fn move_wide(d: u8, imm16: u16, cpu: &mut Cpu) -> StepEnd
    requires { d < 16 }
    ensures { (m : GuestMemory) → record { end_ = result; cpu = cpu.new; memory = m } ≡ spec.wide_moved d imm16 cpu.old m }
{
    move_on(cpu);
    put_reg(cpu, d, imm16 as u32);
    StepEnd::Next
}

/// An immediate into the upper half of a register.
#[inline(always)]
pub fn move_top(d: u8, imm16: u16, cpu: &mut Cpu) -> StepEnd
    requires { d < 16 }
    ensures { (m : GuestMemory) → record { end_ = result; cpu = cpu.new; memory = m } ≡ spec.top_moved d imm16 cpu.old m }
{
    let v = imm16 as u32 * 0x1_0000 + reg(cpu, d) % 0x1_0000;
    move_on(cpu);
    put_reg(cpu, d, v);
    StepEnd::Next
}
