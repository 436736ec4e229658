//! One step: fetched, decoded and obeyed.

ghost use Rattle.std.specs.Prelude.{◌≡◌, ◌%◌, Some, IsTrue};
ghost use Rattle.guest_mem.specs.parts.Kept.{Keeps};
ghost use Rattle.a32_isa.specs.Fields.{Fit};
ghost use Rattle.a32_isa.specs.Allowed.{is_allowed};
ghost use Rattle.a32_isa.specs.Table.{IsInstruction, op_fields};
ghost use Rattle.a32_machine.specs.declared.cpu.StepEnd.TheVariants.{Stop};
ghost use Rattle.a32_machine.specs.declared.cpu.StepStop.{StepStop};
ghost use Rattle.a32_machine.specs.Registers.{pc_of};
ghost use Rattle.a32_machine.specs.Step as spec;

use crate::branch::{branch, jump};
use crate::condition::holds;
use crate::cpu::{Cpu, StepEnd, StepStop};
use crate::data::{count_zeros, move_top, move_wide, process_data};
use crate::decoded::DecodedWords;
use crate::landing::stop_of;
use crate::multiple::{MultipleTransfer, transfer_listed};
use crate::multiply::{LongMultiplication, multiply, multiply_add, multiply_long};
use crate::registers::{move_on, reg, whole};
use crate::transfer::{SingleTransfer, Size, half_offset, mem_offset, moved_by, transfer};
use a32_isa::{Instr, Op, decode, round_trips};
use guest_mem::Guest;

/// Obeys an instruction whose condition holds. The loop that steps has it inline, but for what is long and rare.
#[inline(always)]
#[tactic(auto, unfolding(crate::specs::Step::execute))]
fn execute(op: &Op, cpu: &mut Cpu, guest: &mut Guest) -> StepEnd
    requires fit { Fit (op_fields op.now) }
    requires allowed { IsTrue (is_allowed op.now) }
    ensures { record { end_ = result; cpu = cpu.new; memory = guest.new } ≡ spec.execute op.now cpu.old guest.old }
{
    match *op {
        Op::Data { op, s, n, d, arg } => process_data(op, s, n, d, &arg, cpu),
        Op::Mul { s, d, s2, m } => multiply(s, d, s2, m, cpu),
        Op::Mla { s, d, n, s2, m } => multiply_add(s, d, n, s2, m, cpu),
        Op::Long {
            kind,
            s,
            hi,
            lo,
            s2,
            m,
        } => {
            let long = LongMultiplication {
                kind,
                s,
                hi,
                lo,
                s2,
                m,
            };
            multiply_long(long, cpu)
        }
        Op::Clz { d, m } => count_zeros(d, m, cpu),
        Op::Movw { d, imm16 } => move_wide(d, imm16, cpu),
        Op::Movt { d, imm16 } => move_top(d, imm16, cpu),
        Op::Nop => {
            move_on(cpu);
            StepEnd::Next
        }
        Op::Mem {
            load,
            byte,
            p,
            u,
            w,
            n,
            d,
            off,
        } => {
            let moved = moved_by(u, reg(cpu, n), mem_offset(cpu, &off));
            let size = if byte { Size::Byte } else { Size::Word };
            let t = SingleTransfer {
                load,
                signed: false,
                size,
                p,
                w,
                n,
                d,
                moved,
            };
            transfer(&t, cpu, guest)
        }
        Op::Half {
            kind,
            p,
            u,
            w,
            n,
            d,
            off,
        } => {
            let moved = moved_by(u, reg(cpu, n), half_offset(cpu, &off));
            let size = if kind == 2 { Size::Byte } else { Size::Half };
            let t = SingleTransfer {
                load: kind != 0,
                signed: kind >= 2,
                size,
                p,
                w,
                n,
                d,
                moved,
            };
            transfer(&t, cpu, guest)
        }
        Op::Multi {
            load,
            p,
            u,
            w,
            n,
            list,
        } => transfer_listed(&MultipleTransfer { load, p, u, w, n }, list, cpu, guest),
        Op::Branch { link, imm24 } => branch(link, imm24, cpu),
        Op::Bx { m } => jump(false, m, cpu),
        Op::Blx { m } => jump(true, m, cpu),
        Op::Svc { imm24 } => {
            move_on(cpu);
            StepEnd::Service(imm24)
        }
    }
}

/// Obeys an instruction, if its condition holds.
#[inline(always)]
fn obey(i: &Instr, word: u32, cpu: &mut Cpu, guest: &mut Guest) -> StepEnd
    requires row { IsInstruction word i.now }
    ensures { record { end_ = result; cpu = cpu.new; memory = guest.new } ≡ spec.obeyed cpu.old guest.old word (Some i.now) }
{
    if !holds(i.cond, cpu) {
        move_on(cpu);
        return StepEnd::Next;
    }
    execute(&i.op, cpu, guest)
}

#[tactic(auto, unfolding(crate::specs::Step::step_of))]
fn stepped(cpu: &mut Cpu, guest: &mut Guest) -> StepEnd
    ensures { record { end_ = result; cpu = cpu.new; memory = guest.new } ≡ spec.step_of cpu.old guest.old }
{
    let word = match guest.fetch(cpu.r[15]) {
        Ok(word) => word,
        Err(refusal) => return stop_of(refusal),
    };
    match decode(word) {
        Some(i) => obey(&i, word, cpu, guest),
        None => StepEnd::Stop(StepStop::Undefined(word)),
    }
}

#[inline(always)]
#[tactic(auto, unfolding(crate::specs::Step::step_of))]
fn stepped_decoded(words: &mut DecodedWords, cpu: &mut Cpu, guest: &mut Guest) -> StepEnd
    ensures { record { end_ = result; cpu = cpu.new; memory = guest.new } ≡ spec.step_of cpu.old guest.old }
{
    let word = match guest.fetch(cpu.r[15]) {
        Ok(word) => word,
        Err(refusal) => return stop_of(refusal),
    };
    round_trips();
    match words.instruction(cpu.r[15], word) {
        Some(i) => obey(i, word, cpu, guest),
        None => StepEnd::Stop(StepStop::Undefined(word)),
    }
}

/// Obeys the instruction at `r[15]`. It takes no memory and copies none.
pub fn step(cpu: &mut Cpu, guest: &mut Guest) -> StepEnd
    ensures step { record { end_ = result; cpu = cpu.new; memory = guest.new } ≡ spec.step_of cpu.old guest.old }

    // Whatever the instruction, no byte changes that is watched or isn't mapped as Data, and no kind and no mark.
    ensures keeps { Keeps guest.old guest.new }
    ensures stops { (stop : StepStop) → result ≡ Stop stop → (cpu.new ≡ cpu.old) × (guest.new ≡ guest.old) }
    ensures aligned { pc_of cpu.old % 4 ≡ 0 → pc_of cpu.new % 4 ≡ 0 }
{
    guest.whole();
    whole(cpu);
    stepped(cpu, guest)
}

/// The same with words that have been decoded: one that is among them isn't decoded again.
#[inline(always)]
pub fn step_decoded(words: &mut DecodedWords, cpu: &mut Cpu, guest: &mut Guest) -> StepEnd
    ensures step { record { end_ = result; cpu = cpu.new; memory = guest.new } ≡ spec.step_of cpu.old guest.old }
    ensures keeps { Keeps guest.old guest.new }
    ensures stops { (stop : StepStop) → result ≡ Stop stop → (cpu.new ≡ cpu.old) × (guest.new ≡ guest.old) }
    ensures aligned { pc_of cpu.old % 4 ≡ 0 → pc_of cpu.new % 4 ≡ 0 }
{
    guest.whole();
    whole(cpu);
    stepped_decoded(words, cpu, guest)
}
