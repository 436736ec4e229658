//! The fields of a line.

ghost use Rattle.std.specs.Prelude.{◌≡◌, ◌≢◌, ◌<◌, ◌==◌, ◌∷◌, not, length, position, IfSome, slice_index};
ghost use Rattle.job_text.specs.declared.fields.TheConstants.{SPACE};
ghost use Rattle.job_text.specs.Fields.{fields_of};

use std::marker::Model;

/// The byte that parts fields.
const SPACE: u8 = 0x20;

/// The fields of a line in order.
#[derive(Drop)]
pub(crate) struct Fields<'a> {
    rest: &'a [u8],
}

impl<'a> Model for Fields<'a> {
    ghost use Rattle.std.specs.Prelude.{ℕ, List};
    ghost use Rattle.job_text.specs.Fields.{fields_of};

    ghost Value = { List (List ℕ) };

    ghost view = { λ f. fields_of f.rest.now };
}

impl<'a> Fields<'a> {
    ghost use Rattle.std.specs.Prelude.{◌≡◌, [], ◌∷◌, MatchOption};
    ghost use Rattle.job_text.specs.Fields.{fields_of};

    /// The fields of this line.
    pub(crate) fn new(line: &'a [u8]) -> Fields<'a>
        ensures { result ≡ fields_of line.now }
    {
        Fields { rest: line }
    }

    /// The next field. None exactly where none is left.
    #[tactic(auto, using(crate::proofs::LineFields::no_fields))]
    pub(crate) fn next(&mut self) -> Option<&'a [u8]>
        ensures { MatchOption result ((self.old ≡ []) × (self.new ≡ []))
            (λ field. self.old ≡ field.now ∷ self.new) }
    {
        let rest = behind_spaces(self.rest);
        self.rest = rest;
        if rest.is_empty() {
            return None;
        }
        let (field, behind) = split_field(rest);
        self.rest = behind;
        Some(field)
    }
}

/// The place of the first byte that is no space.
fn first_other(bytes: &[u8]) -> Option<usize>
    ensures place { result ≡ position (λ byte. not (byte == SPACE)) bytes.now }
    ensures within { IfSome result (λ start. start < length bytes.now) }
{
    bytes.iter().position(|byte| *byte != SPACE)
}

/// The place of the first space.
fn first_space(bytes: &[u8]) -> Option<usize>
    ensures place { result ≡ position (λ byte. byte == SPACE) bytes.now }
    ensures within { IfSome result (λ end. end < length bytes.now) }
{
    bytes.iter().position(|byte| *byte == SPACE)
}

/// The bytes from the first on that is no space.
fn behind_spaces<'a>(bytes: &'a [u8]) -> &'a [u8]
    ensures fields { fields_of result.now ≡ fields_of bytes.now }
    ensures first { 0 < length result.now → slice_index result.now 0 ≢ SPACE }
{
    match first_other(bytes) {
        Some(start) => &bytes[start..],
        None => &[],
    }
}

/// The first field of bytes that begin with one, and what stands behind the space that ends it.
fn split_field<'a>(bytes: &'a [u8]) -> (&'a [u8], &'a [u8])
    requires some { 0 < length bytes.now }
    requires first { slice_index bytes.now 0 ≢ SPACE }
    ensures { fields_of bytes.now ≡ result.0.now ∷ fields_of result.1.now }
{
    match first_space(bytes) {
        Some(end) => (&bytes[..end], &bytes[end + 1..]),
        None => (bytes, &[]),
    }
}
