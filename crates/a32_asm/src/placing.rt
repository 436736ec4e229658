//! What a statement takes of its section.

ghost use Rattle.std.specs.Prelude.{◌≡◌, ◌≤◌, ◌^◌, ◌+◌, length};
ghost use Rattle.a32_text.specs.Shown.{shown_statement as shown_instruction};
ghost use Rattle.a32_asm.specs.Layout as spec;
ghost use Rattle.a32_asm.specs.Shown.{shown_statement, shown_bytes};
ghost use Rattle.a32_asm.specs.parts.Fits.{IsStatement};

use crate::said::Statement;
use a32_text::InstrStatement;

/// The bytes of a string with the zero behind them.
fn text_size(bytes: &[u8]) -> u64
    ensures value { result ≡ length bytes.now + 1 }
    ensures short { result ≤ 2 ^ 63 }
{
    bytes.len() as u64 + 1
}

/// The bytes that a statement puts at an offset.
pub(crate) fn size_of(offset: u32, statement: &Statement) -> u64
    requires { IsStatement (shown_statement statement.now) }
    ensures value { result ≡ spec.size_of offset (shown_statement statement.now) }
    ensures short { result ≤ 2 ^ 63 }
{
    match *statement {
        Statement::Nothing => 0,
        Statement::Instr(_) => 4,
        Statement::Section(_) => 0,
        Statement::Bind { name: _, weak: _ } => 0,
        Statement::Show {
            name: _,
            visibility: _,
        } => 0,
        Statement::Kind { name: _, kind: _ } => 0,
        Statement::Word(_) => 4,
        Statement::WordOf {
            name: _,
            kind: _,
            add: _,
        } => 4,
        Statement::Byte(_) => 1,
        Statement::Text(bytes) => text_size(bytes),
        Statement::Space(n) => u64::from(n),
        Statement::Align(n) => u64::from((n - offset % n) % n),
    }
}

/// Whether a statement stands at a multiple of 4.
pub(crate) fn is_word(statement: &Statement) -> bool
    ensures { result ≡ spec.is_word (shown_statement statement.now) }
{
    match *statement {
        Statement::Instr(_) => true,
        Statement::Word(_) => true,
        Statement::WordOf {
            name: _,
            kind: _,
            add: _,
        } => true,
        Statement::Nothing => false,
        Statement::Section(_) => false,
        Statement::Bind { name: _, weak: _ } => false,
        Statement::Show {
            name: _,
            visibility: _,
        } => false,
        Statement::Kind { name: _, kind: _ } => false,
        Statement::Byte(_) => false,
        Statement::Text(_) => false,
        Statement::Space(_) => false,
        Statement::Align(_) => false,
    }
}

/// The name of a branch or a load.
fn name_of<'a>(instruction: InstrStatement<'a>) -> Option<&'a [u8]>
    ensures { shown_bytes result ≡ spec.name_of (shown_instruction instruction.entry) }
{
    match instruction {
        InstrStatement::Instr(_) => None,
        InstrStatement::Branch {
            cond: _,
            link: _,
            name,
        } => Some(name),
        InstrStatement::Literal {
            cond: _,
            d: _,
            name,
        } => Some(name),
    }
}

/// The name of a statement.
pub(crate) fn name_in<'a>(statement: &Statement<'a>) -> Option<&'a [u8]>
    ensures { shown_bytes result ≡ spec.name_in (shown_statement statement.now) }
{
    match *statement {
        Statement::Instr(instruction) => name_of(instruction),
        Statement::Bind { name, weak: _ } => Some(name),
        Statement::Show {
            name,
            visibility: _,
        } => Some(name),
        Statement::Kind { name, kind: _ } => Some(name),
        Statement::WordOf {
            name,
            kind: _,
            add: _,
        } => Some(name),
        Statement::Nothing => None,
        Statement::Section(_) => None,
        Statement::Word(_) => None,
        Statement::Byte(_) => None,
        Statement::Text(_) => None,
        Statement::Space(_) => None,
        Statement::Align(_) => None,
    }
}
