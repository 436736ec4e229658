//! Instructions printed in the assembler's language.

ghost use Rattle.std.specs.Prelude.{◌≡◌, ◌<◌, ◌++◌, IsTrue, OnOk, IfOk};
ghost use Rattle.a32_isa.specs.Fields.{Fit};
ghost use Rattle.a32_isa.specs.Allowed.{is_allowed};
ghost use Rattle.a32_isa.specs.Table.{IsInstr, op_fields};
ghost use Rattle.a32_isa.specs.Text.{op_name, behind_space, mode_name, operands_of, text_of, where_set};

use crate::addressing::Addressing;
use crate::allowed::is_comparison;
use crate::instr::{Instr, Op};
use crate::names::{condition_name, data_name, half_name, long_name};
use crate::operands::{
    put_branch, put_data, put_half, put_mem, put_multi, put_registers, put_wide,
};
use crate::puts::{put_immediate, put_register, put_text, put_where_set};
use fd_base::{Bytes, Memory};
use std::alloc::Global;

/// A word, and a letter behind it where a flag is set.
fn put_word(out: &mut Bytes, word: &str, set: bool, letter: &str) -> Result<(), Memory>
    ensures { OnOk result (out.new ≡ out.old ++ (word.now ++ where_set set letter.now)) }
{
    put_text(out, word)?;
    put_where_set(out, set, letter)
}

/// Where a multiple load or store puts its registers.
fn put_mode(out: &mut Bytes, p: bool, u: bool) -> Result<(), Memory>
    ensures { OnOk result (out.new ≡ out.old ++ mode_name p u) }
{
    put_text(out, if u { "i" } else { "d" })?;
    put_text(out, if p { "b" } else { "a" })
}

/// The mnemonic but for the condition.
fn put_op_name(out: &mut Bytes, op: &Op) -> Result<(), Memory>
    requires fit { Fit (op_fields op.now) }
    requires allowed { IsTrue (is_allowed op.now) }
    ensures { OnOk result (out.new ≡ out.old ++ op_name op.now) }
{
    match *op {
        Op::Data { op, s, .. } => put_word(out, data_name(op), s && !is_comparison(op), "s"),
        Op::Mul { s, .. } => put_word(out, "mul", s, "s"),
        Op::Mla { s, .. } => put_word(out, "mla", s, "s"),
        Op::Long { kind, s, .. } => put_word(out, long_name(kind), s, "s"),
        Op::Clz { .. } => put_text(out, "clz"),
        Op::Movw { .. } => put_text(out, "movw"),
        Op::Movt { .. } => put_text(out, "movt"),
        Op::Nop => put_text(out, "nop"),
        Op::Mem { load, byte, .. } => put_word(out, if load { "ldr" } else { "str" }, byte, "b"),
        Op::Half { kind, .. } => put_text(out, half_name(kind)),
        Op::Multi { load, p, u, .. } => {
            put_text(out, if load { "ldm" } else { "stm" })?;
            put_mode(out, p, u)
        }
        Op::Branch { link, .. } => put_word(out, "b", link, "l"),
        Op::Bx { .. } => put_text(out, "bx"),
        Op::Blx { .. } => put_text(out, "blx"),
        Op::Svc { .. } => put_text(out, "svc"),
    }
}

/// The operands behind a space, where there are any.
fn put_operands(out: &mut Bytes, op: &Op) -> Result<(), Memory>
    requires fit { Fit (op_fields op.now) }
    requires allowed { IsTrue (is_allowed op.now) }
    ensures { OnOk result (out.new ≡ out.old ++ behind_space (operands_of op.now)) }
{
    if let Op::Nop = *op {
        return Ok(());
    }
    put_text(out, " ")?;
    match *op {
        Op::Data { op, n, d, arg, .. } => put_data(out, op, n, d, &arg),
        Op::Mul { d, s2, m, .. } => put_registers(out, &[d, m, s2]),
        Op::Mla { d, n, s2, m, .. } => put_registers(out, &[d, m, s2, n]),
        Op::Long { hi, lo, s2, m, .. } => put_registers(out, &[lo, hi, m, s2]),
        Op::Clz { d, m } => put_registers(out, &[d, m]),
        Op::Movw { d, imm16 } | Op::Movt { d, imm16 } => put_wide(out, d, imm16),
        Op::Nop => Ok(()),
        Op::Mem {
            p,
            u,
            w,
            n,
            d,
            off,
            ..
        } => put_mem(out, d, &Addressing { p, u, w, n }, &off),
        Op::Half {
            p,
            u,
            w,
            n,
            d,
            off,
            ..
        } => put_half(out, d, &Addressing { p, u, w, n }, &off),
        Op::Multi { w, n, list, .. } => put_multi(out, w, n, list),
        Op::Branch { imm24, .. } => put_branch(out, imm24),
        Op::Bx { m } | Op::Blx { m } => put_register(out, m),
        Op::Svc { imm24 } => put_immediate(out, imm24),
    }
}

/// The text of an instruction that the table has, as the assembler reads it. Refuses only for want of memory.
#[tactic(auto, unfolding(crate::specs::Text::text_of))]
pub fn print(alloc: Global, i: &Instr) -> Result<Bytes, Memory>
    requires { IsInstr i.now }
    ensures { IfOk result (λ text. text ≡ text_of i.now) }
{
    let mut out = Bytes::new(alloc);
    put_op_name(&mut out, &i.op)?;
    put_text(&mut out, condition_name(i.cond))?;
    put_operands(&mut out, &i.op)?;
    Ok(out)
}
