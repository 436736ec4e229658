//! Shifts with their carry.

ghost use Rattle.std.specs.Prelude.{◌≡◌, ◌<◌, ◌≤◌, ◌^◌, ◌+◌, ◌-◌};
ghost use Rattle.a32_isa.specs.Fields.{Fit};
ghost use Rattle.a32_isa.specs.Table.{arg_fields};
ghost use Rattle.a32_machine.specs.Bits as bits;
ghost use Rattle.a32_machine.specs.Shifter as spec;

use crate::cpu::Cpu;
use crate::registers::reg;
use a32_isa::Arg;

/// A value, and the last bit that was shifted out of it.
#[derive(Clone, Copy, PartialEq, Eq)]
pub struct Shifted {
    pub value: u32,
    pub carry: bool,
}

/// What a shift by more bits than a word has leaves.
const ALL_OUT: Shifted = Shifted {
    value: 0,
    carry: false,
};

/// One bit of a word.
#[inline(always)]
pub fn bit_of(x: u32, place: u8) -> bool
    requires { place < 32 }
    ensures { result ≡ bits.bit_of x place }
{
    (x >> place) % 2 == 1
}

#[inline(always)]
#[tactic(auto, using(crate::proofs::Shifts::lefts))]
fn shifted_left(x: u32, by: u8) -> Shifted
    requires { 0 < by }
    ensures { result ≡ spec.shifted_left x by }
{
    if by > 32 {
        return ALL_OUT;
    }
    let wide = (x as u64) << by;
    Shifted {
        value: (wide % 0x1_0000_0000) as u32,
        carry: (wide >> 32) % 2 == 1,
    }
}

#[inline(always)]
#[tactic(auto, using(crate::proofs::Shifts::rights))]
fn shifted_right(x: u32, by: u8) -> Shifted
    requires { 0 < by }
    ensures { result ≡ spec.shifted_right x by }
{
    if by > 32 {
        return ALL_OUT;
    }
    let wide = x as u64;
    Shifted {
        value: (wide >> by) as u32,
        carry: (wide >> (by - 1)) % 2 == 1,
    }
}

#[inline(always)]
#[tactic(auto, using(crate::proofs::Shifts::signs))]
fn sign_shifted_right(x: u32, by: u8) -> Shifted
    requires { 0 < by }
    ensures { result ≡ spec.sign_shifted_right x by }
{
    if by > 32 {
        let sign = bit_of(x, 31);
        return Shifted {
            value: if sign { u32::MAX } else { 0 },
            carry: sign,
        };
    }
    let above = if bit_of(x, 31) {
        ((1u64 << by) - 1) << 32
    } else {
        0
    };
    let wide = x as u64 + above;
    Shifted {
        value: (wide >> by) as u32,
        carry: (wide >> (by - 1)) % 2 == 1,
    }
}

#[inline(always)]
fn rotated_right(x: u32, by: u8) -> Shifted
    ensures { result ≡ spec.rotated_right x by }
{
    let value = x.rotate_right(by as u32);
    Shifted {
        value,
        carry: bit_of(value, 31),
    }
}

#[inline(always)]
fn rotated_with_carry(x: u32, carry: bool) -> Shifted
    ensures { result ≡ spec.rotated_with_carry x carry }
{
    Shifted {
        value: x / 2 + if carry { 0x8000_0000 } else { 0 },
        carry: bit_of(x, 0),
    }
}

/// A shift by an amount that a register holds. The kinds are 0 lsl, 1 lsr, 2 asr, 3 ror.
#[inline(always)]
pub fn shifted_by(kind: u8, x: u32, by: u8, carry: bool) -> Shifted
    ensures { result ≡ spec.shifted_by kind x by carry }
{
    if by == 0 {
        return Shifted { value: x, carry };
    }
    match kind {
        0 => shifted_left(x, by),
        1 => shifted_right(x, by),
        2 => sign_shifted_right(x, by),
        _ => rotated_right(x, by),
    }
}

/// A shift by a number in the instruction.
#[inline(always)]
pub fn shifted_at(kind: u8, x: u32, imm: u8, carry: bool) -> Shifted
    ensures { result ≡ spec.shifted_at kind x imm carry }
{
    match (kind, imm) {
        (1 | 2, 0) => shifted_by(kind, x, 32, carry),
        (0..=2, _) => shifted_by(kind, x, imm, carry),
        (_, 0) => rotated_with_carry(x, carry),
        _ => shifted_by(3, x, imm, carry),
    }
}

/// The second operand of a data operation.
#[inline(always)]
pub fn operand_of(cpu: &Cpu, arg: &Arg) -> Shifted
    requires { Fit (arg_fields arg.now) }
    ensures { result ≡ spec.operand_of cpu.now arg.now }
{
    match *arg {
        Arg::Imm { rot, imm } => shifted_by(3, imm as u32, 2 * rot, cpu.c),
        Arg::ByImm { imm, kind, m } => shifted_at(kind, reg(cpu, m), imm, cpu.c),
        Arg::ByReg { s2, kind, m } => {
            let by = (reg(cpu, s2) % 256) as u8;
            shifted_by(kind, reg(cpu, m), by, cpu.c)
        }
    }
}
