//! Words decoded, by their classes: bits 27 to 25.

ghost use Rattle.std.specs.Prelude.{◌≡◌, ◌↔◌, Option, Some, IsNone, IfSome};
ghost use Rattle.a32_isa.specs.declared.instr.Instr.{Instr};
ghost use Rattle.a32_isa.specs.Table.{IsInstruction};
ghost use Rattle.a32_isa.specs.Decoding.{decode_of, candidate_of, with_condition, data_of, mem_of, half_of, multi_of, multiply_of, half_with_kind, half_class_of, misc_of, register_class_of, wide_immediate, wide_of, immediate_class_of};

use crate::allowed::is_allowed;
use crate::bits::{field, flag, small_field};
use crate::instr::{Arg, HalfOff, Instr, MemOff, Op};

#[inline]
fn data_of(word: u32, arg: Arg) -> Op
    ensures { result ≡ data_of word arg }
{
    Op::Data {
        op: small_field(word, 21, 4),
        s: flag(word, 20),
        n: small_field(word, 16, 4),
        d: small_field(word, 12, 4),
        arg,
    }
}

#[inline]
fn mem_of(word: u32, off: MemOff) -> Op
    ensures { result ≡ mem_of word off }
{
    Op::Mem {
        load: flag(word, 20),
        byte: flag(word, 22),
        p: flag(word, 24),
        u: flag(word, 23),
        w: flag(word, 21),
        n: small_field(word, 16, 4),
        d: small_field(word, 12, 4),
        off,
    }
}

#[inline]
fn half_of(word: u32, kind: u8, off: HalfOff) -> Op
    ensures { result ≡ half_of word kind off }
{
    Op::Half {
        kind,
        p: flag(word, 24),
        u: flag(word, 23),
        w: flag(word, 21),
        n: small_field(word, 16, 4),
        d: small_field(word, 12, 4),
        off,
    }
}

#[inline]
fn multi_of(word: u32) -> Op
    ensures { result ≡ multi_of word }
{
    Op::Multi {
        load: flag(word, 20),
        p: flag(word, 24),
        u: flag(word, 23),
        w: flag(word, 21),
        n: small_field(word, 16, 4),
        list: field(word, 0, 16) as u16,
    }
}

/// An operation under a condition, if its row takes its fields.
#[inline]
fn taken(cond: u8, op: Op) -> Option<Instr>
    ensures { result ≡ with_condition cond (Some op) }
{
    if is_allowed(&op) {
        Some(Instr { cond, op })
    } else {
        None
    }
}

/// Bits 7 to 4 are 1001.
#[inline]
#[tactic(auto, unfolding(crate::specs::Decoding::multiply_of))]
fn multiply_of(cond: u8, word: u32) -> Option<Instr>
    ensures { result ≡ with_condition cond (multiply_of word) }
{
    let s = flag(word, 20);
    let d = small_field(word, 16, 4);
    let n = small_field(word, 12, 4);
    let s2 = small_field(word, 8, 4);
    let m = small_field(word, 0, 4);
    let kind = small_field(word, 21, 2);
    match (field(word, 23, 2), kind) {
        (1, _) => taken(
            cond,
            Op::Long {
                kind,
                s,
                hi: d,
                lo: n,
                s2,
                m,
            },
        ),
        (0, 0) if n == 0 => taken(cond, Op::Mul { s, d, s2, m }),
        (0, 1) => taken(cond, Op::Mla { s, d, n, s2, m }),
        _ => None,
    }
}

#[inline]
#[tactic(auto, unfolding(crate::specs::Decoding::half_with_kind))]
fn half_with_kind(cond: u8, word: u32, kind: u8) -> Option<Instr>
    ensures { result ≡ with_condition cond (half_with_kind word kind) }
{
    let high = small_field(word, 8, 4);
    let low = small_field(word, 0, 4);
    if flag(word, 22) {
        taken(cond, half_of(word, kind, HalfOff::Imm(16 * high + low)))
    } else if high == 0 {
        taken(cond, half_of(word, kind, HalfOff::Reg(low)))
    } else {
        None
    }
}

/// Bits 7 and 4 are set, and bit 6 or 5 is.
#[inline]
#[tactic(auto, unfolding(crate::specs::Decoding::half_class_of))]
fn half_class_of(cond: u8, word: u32) -> Option<Instr>
    ensures { result ≡ with_condition cond (half_class_of word) }
{
    match (flag(word, 20), small_field(word, 5, 2)) {
        (true, kind) => half_with_kind(cond, word, kind),
        (false, 1) => half_with_kind(cond, word, 0),
        (false, _) => None,
    }
}

/// The miscellaneous instructions, in the place of comparisons that set no flags.
#[inline]
#[tactic(auto, unfolding(crate::specs::Decoding::misc_of))]
fn misc_of(cond: u8, word: u32) -> Option<Instr>
    ensures { result ≡ with_condition cond (misc_of word) }
{
    let m = small_field(word, 0, 4);
    match (flag(word, 20), field(word, 21, 4)) {
        (false, 11)
            if field(word, 16, 4) == 15 && field(word, 8, 4) == 15 && field(word, 5, 2) == 0 => {
            taken(
                cond,
                Op::Clz {
                    d: small_field(word, 12, 4),
                    m,
                },
            )
        }
        (false, 9) if field(word, 8, 12) == 0xfff => match field(word, 5, 2) {
            0 => taken(cond, Op::Bx { m }),
            1 => taken(cond, Op::Blx { m }),
            _ => None,
        },
        _ => None,
    }
}

#[inline]
#[tactic(auto, unfolding(crate::specs::Decoding::register_class_of))]
fn register_class_of(cond: u8, word: u32) -> Option<Instr>
    ensures { result ≡ with_condition cond (register_class_of word) }
{
    let kind = small_field(word, 5, 2);
    let m = small_field(word, 0, 4);
    if !flag(word, 4) {
        let imm = small_field(word, 7, 5);
        return taken(cond, data_of(word, Arg::ByImm { imm, kind, m }));
    }
    if flag(word, 7) {
        return if kind == 0 {
            multiply_of(cond, word)
        } else {
            half_class_of(cond, word)
        };
    }
    let s2 = small_field(word, 8, 4);
    let op = data_of(word, Arg::ByReg { s2, kind, m });
    if is_allowed(&op) {
        Some(Instr { cond, op })
    } else {
        misc_of(cond, word)
    }
}

#[inline]
fn wide_immediate(word: u32) -> u16
    ensures { result ≡ wide_immediate word }
{
    (4096 * field(word, 16, 4) + field(word, 0, 12)) as u16
}

/// What stands in the place of comparisons with an immediate that set no flags.
#[inline]
#[tactic(auto, unfolding(crate::specs::Decoding::wide_of))]
fn wide_of(cond: u8, word: u32) -> Option<Instr>
    ensures { result ≡ with_condition cond (wide_of word) }
{
    let d = small_field(word, 12, 4);
    let imm16 = wide_immediate(word);
    match (flag(word, 20), field(word, 21, 4)) {
        (false, 8) => taken(cond, Op::Movw { d, imm16 }),
        (false, 10) => taken(cond, Op::Movt { d, imm16 }),
        (false, 9) if field(word, 0, 20) == 0xf000 => taken(cond, Op::Nop),
        _ => None,
    }
}

#[inline]
fn immediate_class_of(cond: u8, word: u32) -> Option<Instr>
    ensures { result ≡ with_condition cond (immediate_class_of word) }
{
    let rot = small_field(word, 8, 4);
    let imm = small_field(word, 0, 8);
    let op = data_of(word, Arg::Imm { rot, imm });
    if is_allowed(&op) {
        Some(Instr { cond, op })
    } else {
        wide_of(cond, word)
    }
}

/// The instruction whose fields a word has below its condition: each class chooses the row, which asks once.
#[inline]
#[tactic(auto, unfolding(crate::specs::Decoding::candidate_of))]
fn candidate_of(cond: u8, word: u32) -> Option<Instr>
    ensures { result ≡ with_condition cond (candidate_of word) }
{
    match field(word, 25, 3) {
        0 => register_class_of(cond, word),
        1 => immediate_class_of(cond, word),
        2 => taken(cond, mem_of(word, MemOff::Imm(field(word, 0, 12) as u16))),
        3 if !flag(word, 4) => {
            let imm = small_field(word, 7, 5);
            let kind = small_field(word, 5, 2);
            let m = small_field(word, 0, 4);
            taken(cond, mem_of(word, MemOff::Reg { imm, kind, m }))
        }
        4 if !flag(word, 22) => taken(cond, multi_of(word)),
        5 => taken(
            cond,
            Op::Branch {
                link: flag(word, 24),
                imm24: field(word, 0, 24),
            },
        ),
        7 if flag(word, 24) => taken(
            cond,
            Op::Svc {
                imm24: field(word, 0, 24),
            },
        ),
        _ => None,
    }
}

#[inline]
#[tactic(auto, unfolding(crate::specs::Decoding::decode_of))]
fn decoded(word: u32) -> Option<Instr>
    ensures { result ≡ decode_of word }
{
    let cond = small_field(word, 28, 4);
    if cond == 15 {
        return None;
    }
    candidate_of(cond, word)
}

/// The instruction whose word this is. None exactly where no row of the instruction table has the word.
pub fn decode(word: u32) -> Option<Instr>
    ensures value { result ≡ decode_of word }
    // What is decoded is a row's instruction, and a row's instruction is decoded.
    ensures row { IfSome result (IsInstruction word) }
    ensures only { (i : Instr) → IsInstruction word i → result ≡ Some i }
    ensures none { IsNone result ↔ ((i : Instr) → IsInstruction word i → ⊥) }
{
    decoded(word)
}
