//! Loads and stores of several registers.

ghost use Rattle.std.specs.Prelude.{◌≡◌, ◌+◌, ◌*◌, ◌<◌, ◌≤◌, ◌^◌, List, ℕ, length, map, take, slice_index};
ghost use Rattle.guest_mem.specs.Memory.{GuestMemory};
ghost use Rattle.a32_machine.specs.Registers.{reg};
ghost use Rattle.a32_machine.specs.Multiple as spec;

use crate::cpu::{Cpu, StepEnd, StepStop};
use crate::landing::stop_of;
use crate::registers::{move_on, put_reg, reg};
use crate::transfer::moved_by;
use guest_mem::Guest;

/// The registers of a list, rising.
#[derive(Clone, Copy)]
struct Registers {
    places: [u8; 16],
    count: usize,
    ghost few: { count ≤ 16 },
    ghost registers: { (k : ℕ) → slice_index places k < 16 },
}

/// The registers whose bits are set.
#[tactic(auto, unfolding(crate::specs::Multiple::registers_of))]
fn registers_of(list: u16) -> Registers
    ensures listed { take result.count result.places ≡ spec.registers_of list }
    ensures some { 0 < list → 0 < result.count }
{
    let mut places = [0u8; 16];
    let mut count = 0;
    for k in 0..16 {
        if (list >> k) % 2 == 1 {
            places[count] = k;
            count += 1;
        }
    }
    Registers { places, count }
}

fn lowest_of(p: bool, u: bool, base: u32, count: u32) -> u32
    requires { count ≤ 16 }
    ensures { result ≡ spec.lowest_of p u base count }
{
    match (u, p) {
        (true, true) => base.wrapping_add(4),
        (true, false) => base,
        (false, true) => base.wrapping_sub(4 * count),
        (false, false) => base.wrapping_sub(4 * count).wrapping_add(4),
    }
}

/// What the registers hold.
fn gather(cpu: &Cpu, registers: &[u8], values: &mut [u32])
    requires same { length registers.now ≡ length values.old }
    requires registers { (k : ℕ) → slice_index registers.now k < 16 }
    ensures { values.new ≡ map (reg cpu.now) registers.now }
{
    for i in 0..registers.len() {
        values[i] = reg(cpu, registers[i]);
    }
}

/// Registers that get one value each.
#[inline]
fn spread(cpu: &mut Cpu, registers: &[u8], values: &[u32])
    requires same { length registers.now ≡ length values.now }
    requires registers { (k : ℕ) → slice_index registers.now k < 16 }
    ensures { cpu.new ≡ record cpu.old { r = spec.with_regs cpu.old.r registers.now values.now } }
{
    for i in 0..registers.len() {
        put_reg(cpu, registers[i], values[i]);
    }
}

/// Registers that are loaded, r15 as the last of them.
#[inline]
fn land_all(cpu: &mut Cpu, loaded: &Cpu) -> StepEnd
    ensures { (m : GuestMemory) → record { end_ = result; cpu = cpu.new; memory = m } ≡ spec.landed_all cpu.old loaded.now m }
{
    if loaded.r[15] % 4 != 0 {
        return StepEnd::Stop(StepStop::Unaligned(loaded.r[15]));
    }
    *cpu = *loaded;
    StepEnd::Next
}

/// A transfer of several registers: which way, and where the words lie from the base.
#[derive(Clone, Copy)]
pub struct MultipleTransfer {
    pub load: bool,
    pub p: bool,
    pub u: bool,
    pub w: bool,
    pub n: u8,
}

/// Moves on to the next instruction, and the base behind the words or below them.
#[inline]
fn move_base(t: &MultipleTransfer, count: u32, cpu: &mut Cpu)
    requires n { t.now.n < 16 }
    requires few { count ≤ 16 }
    ensures { cpu.new ≡ spec.base_moved t.now.u t.now.w t.now.n count cpu.old }
{
    let moved = moved_by(t.u, reg(cpu, t.n), 4 * count);
    move_on(cpu);
    if t.w {
        put_reg(cpu, t.n, moved);
    }
}

/// Loads or stores registers at rising words. A store is refused before its first word is written.
#[inline(never)]
#[tactic(auto, unfolding(crate::specs::Multiple::transferred_all))]
fn transfer_all(
    t: &MultipleTransfer,
    registers: &Registers,
    cpu: &mut Cpu,
    guest: &mut Guest,
) -> StepEnd
    requires n { t.now.n < 16 }
    requires some { 0 < registers.now.count }
    ensures { record { end_ = result; cpu = cpu.new; memory = guest.new } ≡ spec.transferred_all t.now.load t.now.p t.now.u t.now.w t.now.n (take registers.now.count registers.now.places) cpu.old guest.old }
{
    let listed = &registers.places[..registers.count];
    let count = registers.count as u32;
    let lowest = lowest_of(t.p, t.u, reg(cpu, t.n), count);
    let mut all = [0u32; 16];
    let values = &mut all[..registers.count];
    if t.load {
        match guest.read_words(lowest, values) {
            Ok(()) => {
                let mut loaded = *cpu;
                move_base(t, count, &mut loaded);
                spread(&mut loaded, listed, values);
                land_all(cpu, &loaded)
            }
            Err(refusal) => stop_of(refusal),
        }
    } else {
        gather(cpu, listed, values);
        match guest.write_words(lowest, values) {
            Ok(()) => {
                move_base(t, count, cpu);
                StepEnd::Next
            }
            Err(refusal) => stop_of(refusal),
        }
    }
}

/// The same of a list of registers.
#[inline(always)]
pub fn transfer_listed(t: &MultipleTransfer, list: u16, cpu: &mut Cpu, guest: &mut Guest) -> StepEnd
    requires n { t.now.n < 16 }
    requires some { 0 < list }
    ensures { record { end_ = result; cpu = cpu.new; memory = guest.new } ≡ spec.transferred_all t.now.load t.now.p t.now.u t.now.w t.now.n (spec.registers_of list) cpu.old guest.old }
{
    let registers = registers_of(list);
    transfer_all(t, &registers, cpu, guest)
}
