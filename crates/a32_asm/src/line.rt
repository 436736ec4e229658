//! What a line says.

ghost use Rattle.std.specs.Prelude.{◌≡◌, ◌<◌, true, IfOk, IfSome};
ghost use Rattle.a32_text.specs.Token.{front_word, behind_word};
ghost use Rattle.a32_text.specs.Statement as instruction;
ghost use Rattle.a32_text.specs.Word.{is_name};
ghost use Rattle.a32_asm.specs.Line as spec;
ghost use Rattle.a32_asm.specs.Shown.{shown_statement, shown_said, shown_bytes, States, Says};
ghost use Rattle.a32_asm.specs.parts.Fits.{IsStatement, IsSaid};

use crate::bytes::{begins_with, behind_blanks};
use crate::directive::{Directive, directive_of, is_filling};
use crate::operands::operands_of;
use crate::said::{Said, Statement};
use a32_text::{AsmKind, is_apart, is_name, split_word, statement_of as instruction_of};

/// The most bytes of a line.
pub const LINE_MAX: usize = 255;

/// Whether nothing is left but a comment.
fn is_over(text: &[u8]) -> bool
    ensures { result ≡ spec.is_over text.now }
{
    match text.first() {
        Some(byte) => *byte == b'@',
        None => true,
    }
}

/// In `.bss` a known instruction stands in the wrong section, whatever its operands.
fn wrong_in_bss(kind: AsmKind) -> AsmKind
    ensures { result ≡ spec.wrong_in_bss kind }
{
    match kind {
        AsmKind::Mnemonic => AsmKind::Mnemonic,
        _ => AsmKind::Directive,
    }
}

fn instruction<'a>(in_bss: bool, text: &'a [u8]) -> Result<Statement<'a>, AsmKind>
    ensures value { States result (spec.of_instruction in_bss (instruction.statement_of text.now)) }
    ensures fit { IfOk result (λ s. IsStatement (shown_statement s)) }
{
    match instruction_of(text) {
        Ok(_) if in_bss => Err(AsmKind::Directive),
        Ok(instruction) => Ok(Statement::Instr(instruction)),
        Err(kind) if in_bss => Err(wrong_in_bss(kind)),
        Err(kind) => Err(kind),
    }
}

/// A directive and what stands behind it.
#[tactic(auto, unfolding(crate::specs::Line::of_directive))]
fn directive<'a>(in_bss: bool, text: &'a [u8]) -> Result<Statement<'a>, AsmKind>
    ensures value { States result (spec.of_directive in_bss text.now) }
    ensures fit { IfOk result (λ s. IsStatement (shown_statement s)) }
{
    let (word, rest) = split_word(text);
    if !is_apart(rest) {
        return Err(AsmKind::Directive);
    }
    match directive_of(word) {
        None => Err(AsmKind::Directive),
        Some(directive) if in_bss && is_filling(directive) => Err(AsmKind::Directive),
        Some(directive) => operands_of(directive, rest),
    }
}

/// The statement of a text. Directives begin with `.`, and instructions with no such byte.
#[tactic(auto, unfolding(crate::specs::Line::statement_of))]
fn statement_of<'a>(in_bss: bool, text: &'a [u8]) -> Result<Statement<'a>, AsmKind>
    ensures value { States result (spec.statement_of in_bss text.now) }
    ensures fit { IfOk result (λ s. IsStatement (shown_statement s)) }
{
    if is_over(text) {
        return Ok(Statement::Nothing);
    }
    if begins_with(text, b'.') {
        return directive(in_bss, text);
    }
    instruction(in_bss, text)
}

/// What stands behind a label.
fn labelled<'a>(label: Option<&'a [u8]>, in_bss: bool, text: &'a [u8]) -> Result<Said<'a>, AsmKind>
    requires { IfSome label (λ name. is_name name.now ≡ true) }
    ensures value { Says result (spec.labelled (shown_bytes label.entry) (spec.statement_of in_bss text.now)) }
    ensures fit { IfOk result (λ s. IsSaid (shown_said s)) }
{
    match statement_of(in_bss, text) {
        Ok(statement) => Ok(Said { label, statement }),
        Err(kind) => Err(kind),
    }
}

/// What a line says, from its first byte on that is no blank. A label is a name with `:` right behind it.
#[tactic(auto, unfolding(crate::specs::Line::said_in, crate::specs::Line::has_label))]
fn said_in<'a>(in_bss: bool, text: &'a [u8]) -> Result<Said<'a>, AsmKind>
    ensures value { Says result (spec.said_in in_bss text.now) }
    ensures fit { IfOk result (λ s. IsSaid (shown_said s)) }
{
    let (word, rest) = split_word(text);
    if is_name(word) && begins_with(rest, b':') {
        labelled(Some(word), in_bss, behind_blanks(&rest[1..]))
    } else {
        labelled(None, in_bss, text)
    }
}

/// What a line says, in `.bss` or elsewhere.
#[tactic(auto, unfolding(crate::specs::Line::said_of))]
pub(crate) fn said_of<'a>(in_bss: bool, line: &'a [u8]) -> Result<Said<'a>, AsmKind>
    ensures value { Says result (spec.said_of in_bss line.now) }
    ensures fit { IfOk result (λ s. IsSaid (shown_said s)) }
{
    if line.len() > LINE_MAX {
        return Err(AsmKind::LineLong);
    }
    said_in(in_bss, behind_blanks(line))
}
