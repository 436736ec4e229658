//! The lines of a text.

ghost use Rattle.std.specs.Prelude.{◌≡◌, ◌<◌, ◌==◌, ◌∷◌, length, position, IfSome};
ghost use Rattle.fd_base.specs.declared.lines.TheConstants.{LINE_END};
ghost use Rattle.fd_base.specs.Lines.{lines_of};

use std::marker::Model;

/// The byte that ends a line.
const LINE_END: u8 = 0x0a;

/// A line of a text, without the byte that ends it.
#[derive(Clone, Copy)]
pub struct Line<'a> {
    /// Its number. The first line has number 1.
    pub number: u32,
    pub text: &'a [u8],
}

/// The lines of a text in order. A line ends at byte 0x0a, and nothing behind the last one is no line.
#[derive(Drop)]
pub struct Lines<'a> {
    before: u32,
    rest: &'a [u8],
}

impl<'a> Model for Lines<'a> {
    ghost use Rattle.std.specs.Prelude.{◌+◌, ◌^◌, ◌<◌, length};
    ghost use Rattle.fd_base.specs.Lines.{lines_of};
    ghost use Rattle.fd_base.specs.Lines.{Lines as Left};

    ghost Value = { Left };

    ghost view = { λ l. record { before = l.before; left = lines_of l.rest.now } };

    ghost invariant = { λ l. l.before + length l.rest.now < 2 ^ 32 };
}

impl<'a> Lines<'a> {
    ghost use Rattle.std.specs.Prelude.{◌≡◌, ◌+◌, ◌^◌, ◌<◌, [], ◌∷◌, length, MatchOption};
    ghost use Rattle.fd_base.specs.Lines.{lines_of};

    /// The lines of these bytes.
    pub fn new(bytes: &'a [u8]) -> Lines<'a>
        requires { length bytes.now < 2 ^ 32 }
        ensures { result ≡ record { before = 0; left = lines_of bytes.now } }
    {
        Lines {
            before: 0,
            rest: bytes,
        }
    }

    /// The next line. None exactly where none is left.
    pub fn next(&mut self) -> Option<Line<'a>>
        ensures { MatchOption result ((self.old.left ≡ []) × (self.new ≡ self.old))
            (λ line. (line.number ≡ self.old.before + 1)
            × ((self.old.left ≡ line.text.now ∷ self.new.left) × (self.new.before ≡ line.number))) }
    {
        if self.rest.is_empty() {
            return None;
        }
        let (text, rest) = split_line(self.rest);
        self.before += 1;
        self.rest = rest;
        Some(Line {
            number: self.before,
            text,
        })
    }
}

/// The place of the first line end.
fn line_end(bytes: &[u8]) -> Option<usize>
    ensures place { result ≡ position (λ byte. byte == LINE_END) bytes.now }
    ensures within { IfSome result (λ end. end < length bytes.now) }
{
    bytes.iter().position(|byte| *byte == LINE_END)
}

/// The first line of bytes, and what stands behind its end.
fn split_line<'a>(bytes: &'a [u8]) -> (&'a [u8], &'a [u8])
    requires { 0 < length bytes.now }
    ensures lines { lines_of bytes.now ≡ result.0.now ∷ lines_of result.1.now }
    ensures rest { length result.1.now < length bytes.now }
{
    match line_end(bytes) {
        Some(end) => (&bytes[..end], &bytes[end + 1..]),
        None => (bytes, &[]),
    }
}
