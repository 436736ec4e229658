//! Tokens taken from the front of others.

ghost use Rattle.std.specs.Prelude.{◌≡◌, ◌<◌, IfSome, Some, true};
ghost use Rattle.std.specs.Option.{option_copied};
ghost use Rattle.a32_text.specs.Taking.{Takes, RestTaken, behind_mark, behind_gap};
ghost use Rattle.a32_text.specs.Taking as spec;
ghost use Rattle.a32_text.specs.Word.{is_name};

use crate::scanner::{Scanner, Token};
use crate::words::{is_name, register_of};
use fd_base::number;

/// Takes a mark.
pub fn mark(tokens: &mut Scanner, wanted: u8) -> Option<()>
    ensures { RestTaken result tokens.new (behind_mark wanted tokens.old) }
{
    match tokens.next() {
        Some(Token::Mark(byte)) if byte == wanted => Some(()),
        _ => None,
    }
}

/// Takes blanks.
pub fn gap(tokens: &mut Scanner) -> Option<()>
    ensures { RestTaken result tokens.new (behind_gap tokens.old) }
{
    match tokens.next() {
        Some(Token::Gap) => Some(()),
        _ => None,
    }
}

/// Takes a word.
pub fn word<'a>(tokens: &mut Scanner<'a>) -> Option<&'a [u8]>
    ensures { Takes (option_copied result) tokens.new (spec.take_word tokens.old) }
{
    match tokens.next() {
        Some(Token::Word(bytes)) => Some(bytes),
        _ => None,
    }
}

/// Takes a name.
#[tactic(auto, unfolding(crate::specs::Taking::take_name))]
pub fn name<'a>(tokens: &mut Scanner<'a>) -> Option<&'a [u8]>
    ensures taken { Takes (option_copied result) tokens.new (spec.take_name tokens.old) }
    ensures fit { IfSome result (λ word. is_name word.now ≡ true) }
{
    let word = word(tokens)?;
    if is_name(word) { Some(word) } else { None }
}

/// Takes a register.
#[tactic(auto, unfolding(crate::specs::Taking::take_register))]
pub fn register(tokens: &mut Scanner) -> Option<u8>
    ensures taken { Takes result tokens.new (spec.take_register tokens.old) }
    ensures below { IfSome result (λ r. r < 16) }
{
    register_of(word(tokens)?)
}

/// Takes a number.
#[tactic(auto, unfolding(crate::specs::Taking::take_number))]
pub fn number_taken(tokens: &mut Scanner) -> Option<u32>
    ensures { Takes result tokens.new (spec.take_number tokens.old) }
{
    number(word(tokens)?)
}

/// Takes a comma and a register.
#[tactic(auto, unfolding(crate::specs::Taking::take_next_register))]
pub fn next_register(tokens: &mut Scanner) -> Option<u8>
    ensures taken { Takes result tokens.new (spec.take_next_register tokens.old) }
    ensures below { IfSome result (λ r. r < 16) }
{
    mark(tokens, b',')?;
    register(tokens)
}

/// Takes `#` and a number.
#[tactic(auto, unfolding(crate::specs::Taking::take_immediate))]
pub fn immediate(tokens: &mut Scanner) -> Option<u32>
    ensures { Takes result tokens.new (spec.take_immediate tokens.old) }
{
    mark(tokens, b'#')?;
    number_taken(tokens)
}

/// Takes two registers with a comma between them.
#[tactic(auto, unfolding(crate::specs::Taking::take_pair))]
pub(crate) fn pair(tokens: &mut Scanner) -> Option<(u8, u8)>
    ensures taken { Takes result tokens.new (spec.take_pair tokens.old) }
    ensures below { IfSome result (λ both. (both.0 < 16) × (both.1 < 16)) }
{
    let first = register(tokens)?;
    let second = next_register(tokens)?;
    Some((first, second))
}

/// What was taken, where nothing stands behind it.
pub(crate) fn ended<T: Copy>(taken: T, tokens: &mut Scanner) -> Option<T>
    ensures { result ≡ spec.ended (Some (taken, tokens.old)) }
{
    match tokens.next() {
        Some(_) => None,
        None => Some(taken),
    }
}
