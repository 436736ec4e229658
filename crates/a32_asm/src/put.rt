//! What a statement puts, once all labels are known.

ghost use Rattle.std.specs.Prelude.{◌≡◌, ◌<◌, ◌≤◌, ◌%◌, ◌^◌, true, IfSome};
ghost use Rattle.a32_asm.specs.declared.limits.TheConstants.{SECTION_MAX};
ghost use Rattle.a32_asm.specs.SecondPass as spec;
ghost use Rattle.a32_text.specs.Shown.{shown_statement as shown_instruction};
ghost use Rattle.a32_text.specs.Statement.{IsStatement as IsInstruction};
ghost use Rattle.a32_asm.specs.Layout.{is_word};
ghost use Rattle.a32_asm.specs.Shown.{Puts, shown_statement};
ghost use Rattle.a32_asm.specs.parts.Fits.{IsStatement, AreInside};

use crate::known::Known;
use crate::said::{Place, Statement};
use crate::settled::{field_to, label_here, settled};
use a32_isa::{Instr, MemOff, Op, encode};
use a32_text::{AsmKind, InstrStatement};
use elf_model::constants::{R_ARM_CALL, R_ARM_JUMP24, STT_FUNC};

/// What a statement puts.
#[derive(Clone, Copy)]
pub(crate) enum Put<'a> {
    Nothing,
    Word(u32),
    /// A word with a relocation of this kind on a name.
    WordOf { word: u32, kind: u8, name: &'a [u8] },
    Byte(u8),
    /// The bytes of a string, and a zero.
    Text(&'a [u8]),
    Zeros(u32),
}

/// The word of a branch.
fn branch_word(cond: u8, link: bool, field: u32) -> u32
    requires cond { cond < 15 }
    requires field { field < 2 ^ 24 }
    ensures { result ≡ spec.branch_word cond link field }
{
    encode(&Instr {
        cond,
        op: Op::Branch { link, imm24: field },
    })
}

/// A branch from an offset to a label that is settled, or one that a relocation settles.
fn branch<'a>(
    cond: u8,
    link: bool,
    offset: u32,
    name: &'a [u8],
    to: Option<u32>,
) -> Result<Put<'a>, AsmKind>
    requires cond { cond < 15 }
    requires here { offset ≤ SECTION_MAX }
    requires aligned { offset % 4 ≡ 0 }
    requires there { IfSome to (λ to. to ≤ SECTION_MAX) }
    ensures { Puts result (spec.put_branch cond link offset name.now to) }
{
    match to {
        Some(to) if to % 4 == 0 => Ok(Put::Word(branch_word(cond, link, field_to(offset, to)))),
        Some(_) => Err(AsmKind::Range),
        None => Ok(Put::WordOf {
            word: branch_word(cond, link, 0xff_fffe),
            kind: if link && cond == 14 {
                R_ARM_CALL
            } else {
                R_ARM_JUMP24
            },
            name,
        }),
    }
}

/// A type of a name: a function stands at a multiple of 4.
fn kind<'a>(kind: u8, label: Option<Place>) -> Result<Put<'a>, AsmKind>
    ensures { Puts result (spec.put_kind kind label) }
{
    match label {
        Some(place) if kind == STT_FUNC && place.offset % 4 != 0 => Err(AsmKind::Range),
        _ => Ok(Put::Nothing),
    }
}

/// The word of a load from the address plus 8, up or down.
fn load_word(cond: u8, d: u8, up: bool, by: u16) -> u32
    requires cond { cond < 15 }
    requires d { d < 16 }
    requires by { by ≤ 4095 }
    ensures { result ≡ spec.load_word cond d up by }
{
    encode(&Instr {
        cond,
        op: Op::Mem {
            load: true,
            byte: false,
            p: true,
            u: up,
            w: false,
            n: 15,
            d,
            off: MemOff::Imm(by),
        },
    })
}

/// A load that is so far from the address plus 8.
fn near<'a>(cond: u8, d: u8, up: bool, by: u32) -> Result<Put<'a>, AsmKind>
    requires cond { cond < 15 }
    requires d { d < 16 }
    ensures { Puts result (spec.put_near cond d up by) }
{
    if by <= 4095 {
        Ok(Put::Word(load_word(cond, d, up, by as u16)))
    } else {
        Err(AsmKind::Range)
    }
}

/// A load of a word from a label of this section.
fn literal<'a>(cond: u8, d: u8, offset: u32, to: Option<u32>) -> Result<Put<'a>, AsmKind>
    requires cond { cond < 15 }
    requires d { d < 16 }
    requires here { offset ≤ SECTION_MAX }
    ensures { Puts result (spec.put_literal cond d offset to) }
{
    match to {
        None => Err(AsmKind::NoLabel),
        Some(to) if offset + 8 <= to => near(cond, d, true, to - (offset + 8)),
        Some(to) => near(cond, d, false, offset + 8 - to),
    }
}

/// An instruction.
fn instruction<'a>(
    known: &Known,
    section: u8,
    offset: u32,
    instruction: InstrStatement<'a>,
) -> Result<Put<'a>, AsmKind>
    requires fit { IsInstruction (shown_instruction instruction) }
    requires here { offset ≤ SECTION_MAX }
    requires aligned { offset % 4 ≡ 0 }
    requires there { AreInside known.now }
    ensures { Puts result (spec.put_instruction known.now section offset (shown_instruction instruction.entry)) }
{
    match instruction {
        InstrStatement::Instr(i) => Ok(Put::Word(encode(&i))),
        InstrStatement::Branch { cond, link, name } => {
            branch(cond, link, offset, name, settled(known, section, name))
        }
        InstrStatement::Literal { cond, d, name } => {
            literal(
                cond,
                d,
                offset,
                label_here(section, known.facts_of(name).label),
            )
        }
    }
}

/// What a statement puts at an offset of a section.
#[tactic(auto, unfolding(crate::specs::SecondPass::put_of))]
pub(crate) fn put_of<'a>(
    known: &Known,
    section: u8,
    offset: u32,
    statement: &Statement<'a>,
) -> Result<Put<'a>, AsmKind>
    requires fit { IsStatement (shown_statement statement.now) }
    requires here { offset ≤ SECTION_MAX }
    requires aligned { is_word (shown_statement statement.now) ≡ true → offset % 4 ≡ 0 }
    requires there { AreInside known.now }
    ensures { Puts result (spec.put_of known.now section offset (shown_statement statement.now)) }
{
    match *statement {
        Statement::Instr(i) => instruction(known, section, offset, i),
        Statement::Kind { name, kind: told } => kind(told, known.facts_of(name).label),
        Statement::Word(n) => Ok(Put::Word(n)),
        Statement::WordOf { name, kind, add } => Ok(Put::WordOf {
            word: add,
            kind,
            name,
        }),
        Statement::Byte(n) => Ok(Put::Byte(n)),
        Statement::Text(bytes) => Ok(Put::Text(bytes)),
        Statement::Space(n) => Ok(Put::Zeros(n)),
        Statement::Align(n) => Ok(Put::Zeros((n - offset % n) % n)),
        _ => Ok(Put::Nothing),
    }
}
