//! Operands put at the end of a text.

ghost use Rattle.std.specs.Prelude.{◌≡◌, ◌<◌, ◌^◌, ◌++◌, [], ◌∷◌, codes, map, not, OnOk, All, Bool};
ghost use Rattle.a32_isa.specs.Names.{register_name};
ghost use Rattle.a32_isa.specs.Fields.{Fit};
ghost use Rattle.a32_isa.specs.Table.{arg_fields, mem_off_fields, half_high, half_low};
ghost use Rattle.a32_isa.specs.Text.{after, parted, data_registers, shift_operands, constant_operands, arg_operands, mem_off_operands, half_off_operands, address_operands, list_operand, branch_operand, where_set, immediate};

use crate::addressing::Addressing;
use crate::allowed::{is_comparison, is_listed, is_move};
use crate::immediate::{constant_of, is_lowest};
use crate::instr::{Arg, HalfOff, MemOff};
use crate::names::{register_name, shift_name};
use crate::puts::{
    put_immediate, put_next_register, put_offset, put_register, put_signed_register, put_text,
    put_where_set,
};
use fd_base::{Bytes, Memory, put_dec};

/// The shift by a number behind a register, where there is one.
#[tactic(auto, unfolding(crate::specs::Text::shift_operands))]
fn put_shift(out: &mut Bytes, imm: u8, kind: u8) -> Result<(), Memory>
    requires { kind < 4 }
    ensures { OnOk result (out.new ≡ out.old ++ after (shift_operands imm kind)) }
{
    match (imm, kind) {
        (0, 0) => Ok(()),
        (0, 3) => put_text(out, ", rrx"),
        _ => {
            put_text(out, ", ")?;
            put_text(out, shift_name(kind))?;
            put_text(out, " ")?;
            put_immediate(out, if imm == 0 { 32 } else { imm as u32 })
        }
    }
}

/// The constant of an immediate, or where a lower rotation would give it too, byte and rotation.
#[tactic(auto, unfolding(crate::specs::Text::constant_operands))]
fn put_constant(out: &mut Bytes, rot: u8, imm: u8) -> Result<(), Memory>
    requires { rot < 16 }
    ensures { OnOk result (out.new ≡ out.old ++ after (constant_operands rot imm)) }
{
    put_text(out, ", ")?;
    let constant = constant_of(rot, imm);
    if is_lowest(constant, rot) {
        return put_immediate(out, constant);
    }
    put_immediate(out, imm as u32)?;
    put_text(out, ", ")?;
    put_dec(out, 2 * rot as u32)
}

/// The last operand of a data operation, behind a comma.
fn put_arg(out: &mut Bytes, arg: &Arg) -> Result<(), Memory>
    requires { Fit (arg_fields arg.now) }
    ensures { OnOk result (out.new ≡ out.old ++ after (arg_operands arg.now)) }
{
    match *arg {
        Arg::Imm { rot, imm } => put_constant(out, rot, imm),
        Arg::ByImm { imm, kind, m } => {
            put_next_register(out, m)?;
            put_shift(out, imm, kind)
        }
        Arg::ByReg { s2, kind, m } => {
            put_next_register(out, m)?;
            put_text(out, ", ")?;
            put_text(out, shift_name(kind))?;
            put_text(out, " ")?;
            put_register(out, s2)
        }
    }
}

/// The registers of a data operation but for its last operand.
fn put_data_registers(out: &mut Bytes, op: u8, n: u8, d: u8) -> Result<(), Memory>
    requires n { n < 16 }
    requires d { d < 16 }
    ensures { OnOk result (out.new
        ≡ out.old ++ parted (map register_name (data_registers op n d))) }
{
    if is_comparison(op) {
        return put_register(out, n);
    }
    put_register(out, d)?;
    if is_move(op) {
        return Ok(());
    }
    put_next_register(out, n)
}

pub fn put_data(out: &mut Bytes, op: u8, n: u8, d: u8, arg: &Arg) -> Result<(), Memory>
    requires n { n < 16 }
    requires d { d < 16 }
    requires arg { Fit (arg_fields arg.now) }
    ensures { OnOk result (out.new
        ≡ out.old ++ parted (map register_name (data_registers op n d) ++ arg_operands arg.now)) }
{
    put_data_registers(out, op, n, d)?;
    put_arg(out, arg)
}

/// A register and an immediate.
pub fn put_wide(out: &mut Bytes, d: u8, imm16: u16) -> Result<(), Memory>
    requires { d < 16 }
    ensures { OnOk result (out.new
        ≡ out.old ++ parted (register_name d ∷ immediate imm16 ∷ [])) }
{
    put_register(out, d)?;
    put_text(out, ", ")?;
    put_immediate(out, imm16 as u32)
}

/// The offset of an address, behind a comma.
fn put_mem_off(out: &mut Bytes, up: bool, off: &MemOff) -> Result<(), Memory>
    requires { Fit (mem_off_fields off.now) }
    ensures { OnOk result (out.new ≡ out.old ++ after (mem_off_operands up off.now)) }
{
    put_text(out, ", ")?;
    match *off {
        MemOff::Imm(off) => put_offset(out, up, off as u32),
        MemOff::Reg { imm, kind, m } => {
            put_signed_register(out, up, m)?;
            put_shift(out, imm, kind)
        }
    }
}

/// The register that is loaded or stored, and the address.
pub fn put_mem(out: &mut Bytes, d: u8, at: &Addressing, off: &MemOff) -> Result<(), Memory>
    requires d { d < 16 }
    requires n { at.now.n < 16 }
    requires off { Fit (mem_off_fields off.now) }
    ensures { OnOk result (out.new ≡ out.old ++ parted (register_name d
        ∷ address_operands at.now.p at.now.w at.now.n (mem_off_operands at.now.u off.now))) }
{
    put_register(out, d)?;
    put_text(out, ", [")?;
    put_register(out, at.n)?;
    if at.p {
        put_mem_off(out, at.u, off)?;
        put_text(out, "]")?;
        put_where_set(out, at.w, "!")
    } else {
        put_text(out, "]")?;
        put_mem_off(out, at.u, off)
    }
}

/// The same offset, as that of a load or store of a word.
#[tactic(auto, unfolding(crate::specs::Text::shift_operands))]
fn word_off(off: &HalfOff) -> MemOff
    requires high { half_high off.now < 16 }
    requires low { half_low off.now < 16 }
    ensures fit { Fit (mem_off_fields result) }
    ensures operands { (u : Bool) → mem_off_operands u result ≡ half_off_operands u off.now }
{
    match *off {
        HalfOff::Imm(imm) => MemOff::Imm(imm as u16),
        HalfOff::Reg(m) => MemOff::Reg { imm: 0, kind: 0, m },
    }
}

/// The same of a halfword or a signed byte.
pub fn put_half(out: &mut Bytes, d: u8, at: &Addressing, off: &HalfOff) -> Result<(), Memory>
    requires d { d < 16 }
    requires n { at.now.n < 16 }
    requires high { half_high off.now < 16 }
    requires low { half_low off.now < 16 }
    ensures { OnOk result (out.new ≡ out.old ++ parted (register_name d
        ∷ address_operands at.now.p at.now.w at.now.n (half_off_operands at.now.u off.now))) }
{
    put_mem(out, d, at, &word_off(off))
}

/// How far a branch goes.
#[tactic(auto, unfolding(crate::specs::Text::branch_operand))]
pub fn put_branch(out: &mut Bytes, imm24: u32) -> Result<(), Memory>
    requires { imm24 < 2 ^ 24 }
    ensures { OnOk result (out.new ≡ out.old ++ branch_operand imm24) }
{
    if imm24 < 0x80_0000 {
        put_offset(out, true, 4 * imm24)
    } else {
        put_offset(out, false, 4 * (0x100_0000 - imm24))
    }
}

/// A text behind a comma, but for the first.
fn put_item(out: &mut Bytes, first: bool, text: &str) -> Result<(), Memory>
    ensures { OnOk result (out.new
        ≡ out.old ++ (where_set (not first) (codes ", ") ++ text.now)) }
{
    put_where_set(out, !first, ", ")?;
    put_text(out, text)
}

/// Registers, parted by commas.
pub fn put_registers(out: &mut Bytes, registers: &[u8]) -> Result<(), Memory>
    requires { All (λ r. r < 16) registers.now }
    ensures { OnOk result (out.new ≡ out.old ++ parted (map register_name registers.now)) }
{
    for (k, register) in registers.iter().enumerate() {
        put_item(out, k == 0, register_name(*register))?;
    }
    Ok(())
}

/// The registers of a list, parted by commas, in braces.
#[tactic(auto, unfolding(crate::specs::Text::listed_below))]
fn put_list(out: &mut Bytes, list: u16) -> Result<(), Memory>
    ensures { OnOk result (out.new ≡ out.old ++ list_operand list) }
{
    put_text(out, "{")?;
    let mut first = true;
    for register in 0..16u8 {
        if is_listed(list, register) {
            put_item(out, first, register_name(register))?;
            first = false;
        }
    }
    put_text(out, "}")
}

/// The base of a multiple load or store, and its list.
pub fn put_multi(out: &mut Bytes, w: bool, n: u8, list: u16) -> Result<(), Memory>
    requires { n < 16 }
    ensures { OnOk result (out.new ≡ out.old ++ parted ((register_name n ++ where_set w (codes "!"))
        ∷ list_operand list ∷ [])) }
{
    put_register(out, n)?;
    put_where_set(out, w, "!")?;
    put_text(out, ", ")?;
    put_list(out, list)
}
