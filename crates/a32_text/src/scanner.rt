//! The tokens of bytes, one after another.

ghost use Rattle.std.specs.Prelude.{◌≡◌, ◌<◌, ◌≤◌, ◌==◌, ◌∷◌, not, length, drop, take, position, IfSome, false, true, slice_index, All};
ghost use Rattle.a32_text.specs.Token as spec;
ghost use Rattle.a32_text.specs.Token.{tokens_of, with_gap, without_gap, is_word, is_blank, front_word, behind_word, Word};

use std::marker::Model;

/// A token. Blanks at the ends and beside a comma are none.
#[derive(Clone, Copy, Debug)]
pub enum Token<'a> {
    Word(&'a [u8]),
    Mark(u8),
    Gap,
}

/// The tokens that are left.
#[derive(Drop)]
pub struct Scanner<'a> {
    rest: &'a [u8],
}

impl<'a> Model for Scanner<'a> {
    ghost use Rattle.std.specs.Prelude.{List};
    ghost use Rattle.a32_text.specs.Token.{Token, tokens_of};

    ghost Value = { List Token };

    ghost view = { λ s. tokens_of s.rest.now };
}

/// Whether a byte is of a word.
#[tactic(auto, unfolding(crate::specs::Token::is_word))]
pub fn is_word(byte: u8) -> bool
    ensures { result ≡ is_word byte }
{
    byte.is_ascii_lowercase()
        || byte.is_ascii_uppercase()
        || byte.is_ascii_digit()
        || byte == b'_'
        || byte == b'.'
        || byte == b'$'
}

/// A space or a tab.
pub fn is_blank(byte: u8) -> bool
    ensures { result ≡ is_blank byte }
{
    byte == b' ' || byte == b'\t'
}

/// The place of the first byte that is no blank.
fn first_other(bytes: &[u8]) -> Option<usize>
    ensures place { result ≡ position (λ byte. not (is_blank byte)) bytes.now }
    ensures within { IfSome result (λ start. start < length bytes.now) }
{
    bytes.iter().position(|byte| !is_blank(*byte))
}

/// The place of the first byte that is of no word.
fn word_end(bytes: &[u8]) -> Option<usize>
    ensures place { result ≡ position (λ byte. not (is_word byte)) bytes.now }
    ensures within { IfSome result (λ end. end < length bytes.now) }
{
    bytes.iter().position(|byte| !is_word(*byte))
}

/// The bytes from the first on that is no blank.
pub fn behind_blanks<'a>(bytes: &'a [u8]) -> &'a [u8]
    ensures gap { length result.now < length bytes.now → tokens_of bytes.now ≡ with_gap (tokens_of result.now) }
    ensures same { length bytes.now ≤ length result.now → result.now ≡ bytes.now }
    ensures first { 0 < length result.now → is_blank (slice_index result.now 0) ≡ false }
{
    match first_other(bytes) {
        Some(start) => &bytes[start..],
        None => &[],
    }
}

/// The word in front of bytes, and what stands behind it.
pub fn split_word<'a>(bytes: &'a [u8]) -> (&'a [u8], &'a [u8])
    ensures word { result.0.now ≡ front_word bytes.now }
    ensures behind { result.1.now ≡ behind_word bytes.now }
    ensures tokens { 0 < length bytes.now → is_word (slice_index bytes.now 0) ≡ true → tokens_of bytes.now ≡ Word result.0.now ∷ tokens_of result.1.now }
{
    match word_end(bytes) {
        Some(end) => (&bytes[..end], &bytes[end..]),
        None => (bytes, &[]),
    }
}

impl<'a> Scanner<'a> {
    ghost use Rattle.std.specs.Prelude.{◌≡◌, [], ◌∷◌, MatchOption};
    ghost use Rattle.a32_text.specs.Token.{tokens_of, without_gap};
    ghost use Rattle.a32_text.specs.Shown.{shown_token};
    ghost use Rattle.a32_text.specs.Taking.{behind_mark, MarkTaken};

    /// The tokens of these bytes.
    pub fn new(bytes: &'a [u8]) -> Scanner<'a>
        ensures { result ≡ without_gap (tokens_of bytes.now) }
    {
        Scanner {
            rest: behind_blanks(bytes),
        }
    }

    /// The next token. None exactly where none is left.
    pub fn next(&mut self) -> Option<Token<'a>>
        ensures { MatchOption result ((self.old ≡ []) × (self.new ≡ [])) (λ token. self.old ≡ shown_token token ∷ self.new) }
    {
        let rest = behind_blanks(self.rest);
        if rest.is_empty() {
            self.rest = rest;
            return None;
        }
        let byte = rest[0];
        if byte == b'@' {
            self.rest = &[];
            return None;
        }
        if byte == b',' {
            self.rest = behind_blanks(&rest[1..]);
            return Some(Token::Mark(b','));
        }
        if rest.len() < self.rest.len() {
            self.rest = rest;
            return Some(Token::Gap);
        }
        if is_word(byte) {
            let (word, behind) = split_word(rest);
            self.rest = behind;
            return Some(Token::Word(word));
        }
        self.rest = &rest[1..];
        Some(Token::Mark(byte))
    }

    /// Takes a mark where it stands first. Else the tokens stay.
    pub fn has_mark(&mut self, wanted: u8) -> bool
        ensures { MarkTaken result self.old self.new (behind_mark wanted self.old) }
    {
        let mut ahead = Scanner { rest: self.rest };
        match ahead.next() {
            Some(Token::Mark(byte)) if byte == wanted => {
                self.rest = ahead.rest;
                true
            }
            _ => false,
        }
    }
}
