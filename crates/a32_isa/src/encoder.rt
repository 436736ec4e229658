//! Instructions encoded: the row of each as a sum of its fields, each in its place.

ghost use Rattle.std.specs.Prelude.{◌≡◌, ◌+◌, ◌*◌, ◌/◌, ◌%◌, ◌^◌, ◌<◌, ◌≤◌, IsTrue};
ghost use Rattle.a32_isa.specs.Fields.{Fit, bit, number_of};
ghost use Rattle.a32_isa.specs.Allowed.{is_allowed};
ghost use Rattle.a32_isa.specs.Table.{IsInstr, IsInstruction, arg_fields, op_fields, mem_off_fields, half_code, half_high, half_low};
ghost use Rattle.a32_isa.specs.declared.instr.Op.TheVariants.{Data, Mem, Half};

use crate::addressing::Addressing;
use crate::instr::{Arg, HalfOff, Instr, MemOff, Op};

/// A number with its lowest bit at a place.
#[inline]
fn placed(value: u8, low: u8) -> u32
    requires place { low < 32 }
    requires fits { value * 2 ^ low < 2 ^ 32 }
    ensures { result ≡ value * 2 ^ low }
{
    (value as u32) << low
}

/// A flag at a place.
#[inline]
fn flag(set: bool, low: u8) -> u32
    requires { low < 32 }
    ensures { result ≡ bit set * 2 ^ low }
{
    if set { 1 << low } else { 0 }
}

/// A register shifted by a number.
fn shift_bits(imm: u8, kind: u8, m: u8) -> u32
    requires imm { imm < 32 }
    requires kind { kind < 4 }
    requires m { m < 16 }
    ensures value { result ≡ imm * 2 ^ 7 + kind * 2 ^ 5 + m }
    ensures fits { result < 2 ^ 12 }
{
    placed(imm, 7) + placed(kind, 5) + m as u32
}

fn arg_bits(arg: &Arg) -> u32
    requires { Fit (arg_fields arg.now) }
    ensures value { result ≡ number_of (arg_fields arg.now) }
    ensures fits { result < 2 ^ 12 }
{
    match *arg {
        Arg::Imm { rot, imm } => placed(rot, 8) + imm as u32,
        Arg::ByImm { imm, kind, m } => shift_bits(imm, kind, m),
        Arg::ByReg { s2, kind, m } => placed(s2, 8) + placed(kind, 5) + 0x10 + m as u32,
    }
}

fn mem_off_bits(off: &MemOff) -> u32
    requires { Fit (mem_off_fields off.now) }
    ensures value { result ≡ number_of (mem_off_fields off.now) }
    ensures fits { result < 2 ^ 12 }
{
    match *off {
        MemOff::Imm(imm) => imm as u32,
        MemOff::Reg { imm, kind, m } => shift_bits(imm, kind, m),
    }
}

fn half_bits(kind: u8, off: &HalfOff) -> u32
    requires kind { kind < 4 }
    requires high { half_high off.now < 16 }
    requires low { half_low off.now < 16 }
    ensures value { result
        ≡ half_high off.now * 2 ^ 8 + 2 ^ 7 + half_code kind * 2 ^ 5 + 2 ^ 4 + half_low off.now }
    ensures fits { result < 2 ^ 12 }
{
    let code = if kind == 0 { 1 } else { kind };
    let (high, low) = match *off {
        HalfOff::Imm(imm) => (imm / 16, imm % 16),
        HalfOff::Reg(m) => (0, m),
    };
    placed(high, 8) + 0x80 + placed(code, 5) + 0x10 + low as u32
}

fn multiply_bits(s: bool, hi: u8, lo: u8, s2: u8, m: u8) -> u32
    requires hi { hi < 16 }
    requires lo { lo < 16 }
    requires s2 { s2 < 16 }
    requires m { m < 16 }
    ensures value { result
        ≡ bit s * 2 ^ 20 + hi * 2 ^ 16 + lo * 2 ^ 12 + s2 * 2 ^ 8 + 2 ^ 7 + 2 ^ 4 + m }
    ensures fits { result < 2 ^ 21 }
{
    flag(s, 20) + placed(hi, 16) + placed(lo, 12) + placed(s2, 8) + 0x90 + m as u32
}

/// The flags of an address and its base, with the flag between U and W and the one behind W.
fn address_bits(at: &Addressing, fourth: bool, load: bool) -> u32
    requires { at.now.n < 16 }
    ensures value { result
        ≡ bit at.now.p * 2 ^ 24 + bit at.now.u * 2 ^ 23 + bit fourth * 2 ^ 22 + bit at.now.w * 2 ^ 21
        + bit load * 2 ^ 20 + at.now.n * 2 ^ 16 }
    ensures fits { result + 2 ^ 16 ≤ 2 ^ 25 }
{
    flag(at.p, 24)
        + flag(at.u, 23)
        + flag(fourth, 22)
        + flag(at.w, 21)
        + flag(load, 20)
        + placed(at.n, 16)
}

/// A register and an immediate of 16 bits in two parts.
fn wide_bits(d: u8, imm16: u16) -> u32
    requires { d < 16 }
    ensures value { result ≡ imm16 / 2 ^ 12 * 2 ^ 16 + d * 2 ^ 12 + imm16 % 2 ^ 12 }
    ensures fits { result < 2 ^ 20 }
{
    (imm16 as u32 / 0x1000) * 0x1_0000 + placed(d, 12) + (imm16 % 0x1000) as u32
}

fn data_word(op: u8, s: bool, n: u8, d: u8, arg: &Arg) -> u32
    requires { Fit (op_fields (Data op s n d arg.now)) }
    ensures { result ≡ number_of (op_fields (Data op s n d arg.now)) }
{
    let class = match *arg {
        Arg::Imm { .. } => 1,
        _ => 0,
    };
    placed(class, 25) + placed(op, 21) + flag(s, 20) + placed(n, 16) + placed(d, 12) + arg_bits(arg)
}

fn mem_word(load: bool, byte: bool, at: &Addressing, d: u8, off: &MemOff) -> u32
    requires { Fit (op_fields (Mem load byte at.now.p at.now.u at.now.w at.now.n d off.now)) }
    ensures { result
        ≡ number_of (op_fields (Mem load byte at.now.p at.now.u at.now.w at.now.n d off.now)) }
{
    let class = match *off {
        MemOff::Imm(_) => 2,
        MemOff::Reg { .. } => 3,
    };
    placed(class, 25) + address_bits(at, byte, load) + placed(d, 12) + mem_off_bits(off)
}

fn half_word(kind: u8, at: &Addressing, d: u8, off: &HalfOff) -> u32
    requires fit { Fit (op_fields (Half kind at.now.p at.now.u at.now.w at.now.n d off.now)) }
    requires kind { kind < 4 }
    ensures { result
        ≡ number_of (op_fields (Half kind at.now.p at.now.u at.now.w at.now.n d off.now)) }
{
    let immediate = match *off {
        HalfOff::Imm(_) => true,
        HalfOff::Reg(_) => false,
    };
    address_bits(at, immediate, kind != 0) + placed(d, 12) + half_bits(kind, off)
}

fn op_word(op: &Op) -> u32
    requires fit { Fit (op_fields op.now) }
    requires allowed { IsTrue (is_allowed op.now) }
    ensures { result ≡ number_of (op_fields op.now) }
{
    match *op {
        Op::Data { op, s, n, d, arg } => data_word(op, s, n, d, &arg),
        Op::Mul { s, d, s2, m } => multiply_bits(s, d, 0, s2, m),
        Op::Mla { s, d, n, s2, m } => placed(1, 21) + multiply_bits(s, d, n, s2, m),
        Op::Long {
            kind,
            s,
            hi,
            lo,
            s2,
            m,
        } => placed(1, 23) + placed(kind, 21) + multiply_bits(s, hi, lo, s2, m),
        Op::Clz { d, m } => 0x016f_0f10 + placed(d, 12) + m as u32,
        Op::Movw { d, imm16 } => 0x0300_0000 + wide_bits(d, imm16),
        Op::Movt { d, imm16 } => 0x0340_0000 + wide_bits(d, imm16),
        Op::Nop => 0x0320_f000,
        Op::Mem {
            load,
            byte,
            p,
            u,
            w,
            n,
            d,
            off,
        } => mem_word(load, byte, &Addressing { p, u, w, n }, d, &off),
        Op::Half {
            kind,
            p,
            u,
            w,
            n,
            d,
            off,
        } => half_word(kind, &Addressing { p, u, w, n }, d, &off),
        Op::Multi {
            load,
            p,
            u,
            w,
            n,
            list,
        } => 0x0800_0000 + address_bits(&Addressing { p, u, w, n }, false, load) + list as u32,
        Op::Branch { link, imm24 } => 0x0a00_0000 + flag(link, 24) + imm24,
        Op::Bx { m } => 0x012f_ff10 + m as u32,
        Op::Blx { m } => 0x012f_ff30 + m as u32,
        Op::Svc { imm24 } => 0x0f00_0000 + imm24,
    }
}

/// The word of an instruction that the table has: the one word that its row gives it.
pub fn encode(i: &Instr) -> u32
    requires { IsInstr i.now }
    ensures { IsInstruction result i.now }
{
    placed(i.cond, 28) + op_word(&i.op)
}
