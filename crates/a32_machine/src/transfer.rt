//! Loads and stores of one register.

ghost use Rattle.std.specs.Prelude.{◌≡◌, ◌<◌, ◌^◌, ◌*◌};
ghost use Rattle.guest_mem.specs.parts.Answered.{IsWritten};
ghost use Rattle.a32_isa.specs.Fields.{Fit};
ghost use Rattle.a32_isa.specs.Table.{half_low, mem_off_fields};
ghost use Rattle.a32_machine.specs.Transfers as spec;

use crate::cpu::{Cpu, StepEnd};
use crate::landing::{landing_stop, stop_of};
use crate::registers::{move_on, put_reg, reg};
use crate::shifter::{bit_of, shifted_at};
use a32_isa::{HalfOff, MemOff};
use guest_mem::{Access, Guest};

/// How many bytes are transferred.
#[derive(Clone, Copy, PartialEq, Eq)]
pub enum Size {
    Byte,
    Half,
    Word,
}

/// A transfer of a register: which way, of what, and how the base makes the address. `moved` is the base moved by the
/// offset.
#[derive(Clone, Copy)]
pub struct SingleTransfer {
    pub load: bool,
    pub signed: bool,
    pub size: Size,
    pub p: bool,
    pub w: bool,
    pub n: u8,
    pub d: u8,
    pub moved: u32,
}

/// A register moved up or down by an offset.
#[inline(always)]
pub fn moved_by(u: bool, base: u32, offset: u32) -> u32
    ensures { result ≡ spec.moved_by u base offset }
{
    if u {
        base.wrapping_add(offset)
    } else {
        base.wrapping_sub(offset)
    }
}

#[inline(always)]
pub fn mem_offset(cpu: &Cpu, off: &MemOff) -> u32
    requires { Fit (mem_off_fields off.now) }
    ensures { result ≡ spec.mem_offset cpu.now off.now }
{
    match *off {
        MemOff::Imm(offset) => offset as u32,
        MemOff::Reg { imm, kind, m } => shifted_at(kind, reg(cpu, m), imm, cpu.c).value,
    }
}

#[inline(always)]
pub fn half_offset(cpu: &Cpu, off: &HalfOff) -> u32
    requires { half_low off.now < 16 }
    ensures { result ≡ spec.half_offset cpu.now off.now }
{
    match *off {
        HalfOff::Imm(offset) => offset as u32,
        HalfOff::Reg(m) => reg(cpu, m),
    }
}

/// A number of some bytes with copies of its sign above, where it is signed.
#[inline(always)]
fn extend(signed: bool, size: Size, v: u32) -> u32
    requires { v < 2 ^ (8 * spec.width_of size) }
    ensures { result ≡ spec.extend signed size v }
{
    match size {
        Size::Byte if signed && bit_of(v, 7) => v + 0xffff_ff00,
        Size::Half if signed && bit_of(v, 15) => v + 0xffff_0000,
        _ => v,
    }
}

#[inline(always)]
fn load(guest: &Guest, signed: bool, size: Size, addr: u32) -> Result<u32, Access>
    ensures { result ≡ spec.load_of signed size guest.now addr }
{
    let v = match size {
        Size::Byte => guest.read8(addr)? as u32,
        Size::Half => guest.read16(addr)? as u32,
        Size::Word => guest.read32(addr)?,
    };
    Ok(extend(signed, size, v))
}

/// The low bytes of a word.
#[inline(always)]
fn store(guest: &mut Guest, size: Size, addr: u32, v: u32) -> Result<(), Access>
    ensures { IsWritten result (spec.store_of size guest.old addr v) guest.old guest.new }
{
    match size {
        Size::Byte => guest.write8(addr, (v % 0x100) as u8),
        Size::Half => guest.write16(addr, (v % 0x1_0000) as u16),
        Size::Word => guest.write32(addr, v),
    }
}

/// Leaves the base moved, where the transfer says so.
#[inline(always)]
fn write_back(t: &SingleTransfer, cpu: &mut Cpu)
    requires { t.now.n < 16 }
    ensures { cpu.new ≡ spec.written_back t.now.p t.now.w t.now.n t.now.moved cpu.old }
{
    if !t.p || t.w {
        put_reg(cpu, t.n, t.moved);
    }
}

/// Loads or stores a register.
#[inline(always)]
#[tactic(auto, unfolding(crate::specs::Transfers::transferred))]
pub fn transfer(t: &SingleTransfer, cpu: &mut Cpu, guest: &mut Guest) -> StepEnd
    requires n { t.now.n < 16 }
    requires d { t.now.d < 16 }
    ensures { record { end_ = result; cpu = cpu.new; memory = guest.new } ≡ spec.transferred t.now.load t.now.signed t.now.size t.now.p t.now.w t.now.n t.now.d t.now.moved cpu.old guest.old }
{
    let addr = if t.p { t.moved } else { reg(cpu, t.n) };
    if t.load {
        let v = match load(guest, t.signed, t.size, addr) {
            Ok(v) => v,
            Err(refusal) => return stop_of(refusal),
        };
        if let Some(stop) = landing_stop(t.d, v) {
            return StepEnd::Stop(stop);
        }
        move_on(cpu);
        write_back(t, cpu);
        put_reg(cpu, t.d, v);
        StepEnd::Next
    } else {
        let v = reg(cpu, t.d);
        match store(guest, t.size, addr, v) {
            Ok(()) => {
                move_on(cpu);
                write_back(t, cpu);
                StepEnd::Next
            }
            Err(refusal) => stop_of(refusal),
        }
    }
}
