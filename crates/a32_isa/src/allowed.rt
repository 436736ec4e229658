//! What the rows of the instruction table ask of their fields.

ghost use Rattle.std.specs.Prelude.{◌≡◌, ◌<◌};
ghost use Rattle.a32_isa.specs.Registers.{is_comparison, is_move, is_listed};
ghost use Rattle.a32_isa.specs.Allowed.{is_allowed, is_arg_allowed, is_data_allowed, is_mem_off_allowed, is_half_off_allowed, is_base_allowed, is_multi_allowed};

use crate::instr::{Arg, HalfOff, MemOff, Op};

/// The program counter.
const PC: u8 = 15;

#[inline]
pub fn is_comparison(op: u8) -> bool
    ensures { result ≡ is_comparison op }
{
    8 <= op && op <= 11
}

#[inline]
pub fn is_move(op: u8) -> bool
    ensures { result ≡ is_move op }
{
    op == 13 || op == 15
}

#[inline]
pub fn is_listed(list: u16, register: u8) -> bool
    requires { register < 16 }
    ensures { result ≡ is_listed list register }
{
    (list >> register) % 2 == 1
}

#[inline]
fn is_data_allowed(op: u8, s: bool, n: u8, d: u8) -> bool
    ensures { result ≡ is_data_allowed op s n d }
{
    (!is_comparison(op) || (s && d == 0)) && (!is_move(op) || n == 0) && !(s && d == PC)
}

#[inline]
fn is_arg_allowed(n: u8, d: u8, arg: &Arg) -> bool
    ensures { result ≡ is_arg_allowed n d arg.now }
{
    match *arg {
        Arg::ByReg { s2, m, .. } => n != PC && d != PC && s2 != PC && m != PC,
        _ => true,
    }
}

#[inline]
fn is_mem_off_allowed(off: &MemOff) -> bool
    ensures { result ≡ is_mem_off_allowed off.now }
{
    match *off {
        MemOff::Reg { m, .. } => m != PC,
        MemOff::Imm(_) => true,
    }
}

#[inline]
fn is_half_off_allowed(off: &HalfOff) -> bool
    ensures { result ≡ is_half_off_allowed off.now }
{
    match *off {
        HalfOff::Reg(m) => m != PC,
        HalfOff::Imm(_) => true,
    }
}

#[inline]
fn is_base_allowed(p: bool, w: bool, n: u8, d: u8) -> bool
    ensures { result ≡ is_base_allowed p w n d }
{
    (p || !w) && ((p && !w) || (n != PC && n != d))
}

#[inline]
fn is_multi_allowed(load: bool, w: bool, n: u8, list: u16) -> bool
    ensures { result ≡ is_multi_allowed load w n list }
{
    list != 0 && n < PC && !(w && is_listed(list, n)) && (load || !is_listed(list, PC))
}

/// A row has these fields.
#[inline]
pub fn is_allowed(op: &Op) -> bool
    ensures { result ≡ is_allowed op.now }
{
    match *op {
        Op::Data { op, s, n, d, arg } => is_data_allowed(op, s, n, d) && is_arg_allowed(n, d, &arg),
        Op::Mul { d, s2, m, .. } => d != PC && s2 != PC && m != PC,
        Op::Mla { d, n, s2, m, .. } => d != PC && n != PC && s2 != PC && m != PC,
        Op::Long { hi, lo, s2, m, .. } => hi != PC && lo != PC && s2 != PC && m != PC && hi != lo,
        Op::Clz { d, m } => d != PC && m != PC,
        Op::Movw { d, .. } | Op::Movt { d, .. } => d != PC,
        Op::Mem {
            load,
            byte,
            p,
            w,
            n,
            d,
            off,
            ..
        } => is_base_allowed(p, w, n, d)
            && (d != PC || (load && !byte))
            && is_mem_off_allowed(&off),
        Op::Half {
            kind,
            p,
            w,
            n,
            d,
            off,
            ..
        } => kind < 4 && is_base_allowed(p, w, n, d) && d != PC && is_half_off_allowed(&off),
        Op::Multi {
            load,
            w,
            n,
            list,
            ..
        } => is_multi_allowed(load, w, n, list),
        Op::Bx { m } | Op::Blx { m } => m != PC,
        Op::Nop | Op::Branch { .. } | Op::Svc { .. } => true,
    }
}
