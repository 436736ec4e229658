//! What a statement of an instruction says.

ghost use Rattle.std.specs.Prelude.{◌≡◌, ◌<◌, IfSome, IfOk, option_map, true};
ghost use Rattle.std.specs.Option.{option_copied};
ghost use Rattle.a32_isa.specs.Fields.{Fit};
ghost use Rattle.a32_isa.specs.Table.{op_fields};
ghost use Rattle.a32_text.specs.Word.{IsHead, is_name};
ghost use Rattle.a32_text.specs.Operands.{last_behind_comma};
ghost use Rattle.a32_text.specs.Taking.{ended, take_name};
ghost use Rattle.a32_text.specs.Shown.{shown_statement, Says};
ghost use Rattle.a32_text.specs.Statement as spec;

use crate::fitting::Draft;
use crate::head::Head;
use crate::operands::operands_of;
use crate::refusal::AsmKind;
use crate::scanner::{Scanner, is_blank, split_word};
use crate::taking::{ended, mark, name, register};
use crate::words::mnemonic_of;
use a32_isa::{Instr, is_allowed};

/// A statement of an instruction.
#[derive(Clone, Copy)]
pub enum InstrStatement<'a> {
    /// With all its fields.
    Instr(Instr),
    /// `b NAME` and `bl NAME`.
    Branch {
        cond: u8,
        link: bool,
        name: &'a [u8],
    },
    /// `ldr d, NAME`.
    Literal {
        cond: u8,
        d: u8,
        name: &'a [u8],
    },
}

fn checked<'a>(cond: u8, draft: &Draft) -> Result<InstrStatement<'a>, AsmKind>
    requires cond { cond < 15 }
    requires fit { Fit (op_fields draft.now.op) }
    ensures value { Says result (spec.checked cond draft.now) }
    ensures fit { IfOk result (λ s. spec.IsStatement (shown_statement s)) }
{
    if !is_allowed(&draft.op) {
        return Err(AsmKind::Operand);
    }
    if !draft.fits {
        return Err(AsmKind::Range);
    }
    Ok(InstrStatement::Instr(Instr { cond, op: draft.op }))
}

/// A name, and nothing behind it.
fn name_to_end<'a>(tokens: &mut Scanner<'a>) -> Option<&'a [u8]>
    ensures value { option_copied result ≡ ended (take_name tokens.old) }
    ensures fit { IfSome result (λ name. is_name name.now ≡ true) }
{
    let name = name(tokens)?;
    ended(name, tokens)
}

fn branch<'a>(cond: u8, link: bool, tokens: &mut Scanner<'a>) -> Option<InstrStatement<'a>>
    requires { cond < 15 }
    ensures value { option_map shown_statement result ≡ spec.branch_of cond link tokens.old }
    ensures fit { IfSome result (λ s. spec.IsStatement (shown_statement s)) }
{
    let name = name_to_end(tokens)?;
    Some(InstrStatement::Branch { cond, link, name })
}

#[tactic(auto, unfolding(crate::specs::Statement::literal_of))]
fn literal<'a>(cond: u8, tokens: &mut Scanner<'a>) -> Option<InstrStatement<'a>>
    requires { cond < 15 }
    ensures value { option_map shown_statement result ≡ spec.literal_of cond tokens.old }
    ensures fit { IfSome result (λ s. spec.IsStatement (shown_statement s)) }
{
    let d = register(tokens)?;
    mark(tokens, b',')?;
    let name = name_to_end(tokens)?;
    Some(InstrStatement::Literal { cond, d, name })
}

/// A branch to a name, or a load of a word from one.
#[tactic(auto, unfolding(crate::specs::Statement::named_of))]
fn named<'a>(cond: u8, head: Head, tokens: &mut Scanner<'a>) -> Option<InstrStatement<'a>>
    requires { cond < 15 }
    ensures value { option_map shown_statement result ≡ spec.named_of cond head tokens.old }
    ensures fit { IfSome result (λ s. spec.IsStatement (shown_statement s)) }
{
    match head {
        Head::Branch { link } => branch(cond, link, tokens),
        Head::Mem { load, byte } if load && !byte => literal(cond, tokens),
        _ => None,
    }
}

/// The statement of a head and a condition, and the bytes behind them.
#[tactic(auto, unfolding(crate::specs::Statement::statement_with))]
fn statement_with<'a>(cond: u8, head: Head, rest: &'a [u8]) -> Result<InstrStatement<'a>, AsmKind>
    requires cond { cond < 15 }
    requires head { IsHead head }
    ensures value { Says result (spec.statement_with cond head (spec.operand_tokens rest.now)) }
    ensures fit { IfOk result (λ s. spec.IsStatement (shown_statement s)) }
{
    if let Some(statement) = named(cond, head, &mut Scanner::new(rest)) {
        return Ok(statement);
    }
    match operands_of(head, &mut Scanner::new(rest)) {
        Some(draft) => checked(cond, &draft),
        None => Err(AsmKind::Operand),
    }
}

/// The statement of a mnemonic and the bytes behind it.
#[tactic(auto, unfolding(crate::specs::Statement::instruction_of))]
pub fn instruction_of<'a>(word: &[u8], rest: &'a [u8]) -> Result<InstrStatement<'a>, AsmKind>
    ensures value { Says result (spec.instruction_of word.now (spec.operand_tokens rest.now)) }
    ensures fit { IfOk result (λ s. spec.IsStatement (shown_statement s)) }
{
    match mnemonic_of(word) {
        Some(mnemonic) => statement_with(mnemonic.cond, mnemonic.head, rest),
        None => Err(AsmKind::Mnemonic),
    }
}

/// Whether a word may end before these bytes.
#[tactic(auto, unfolding(crate::specs::Statement::is_apart))]
pub fn is_apart(rest: &[u8]) -> bool
    ensures { result ≡ spec.is_apart rest.now }
{
    match rest.first() {
        None => true,
        Some(byte) => is_blank(*byte) || *byte == b',' || *byte == b'@',
    }
}

/// The statement of a text that begins with a mnemonic.
#[tactic(auto, unfolding(crate::specs::Statement::statement_of))]
pub fn statement_of<'a>(text: &'a [u8]) -> Result<InstrStatement<'a>, AsmKind>
    ensures value { Says result (spec.statement_of text.now) }
    ensures fit { IfOk result (λ s. spec.IsStatement (shown_statement s)) }
{
    let (word, rest) = split_word(text);
    if is_apart(rest) {
        instruction_of(word, rest)
    } else {
        Err(AsmKind::Mnemonic)
    }
}
