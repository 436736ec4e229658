//! What stands in front of the bytes of a line.

ghost use Rattle.std.specs.Prelude.{◌≡◌, ◌<◌, not, length, position, IfSome};
ghost use Rattle.std.specs.Option.{option_copied};
ghost use Rattle.a32_text.specs.Token.{is_blank};
ghost use Rattle.a32_asm.specs.Bytes as spec;
ghost use Rattle.a32_asm.specs.Shown.{shown_bytes};

use a32_text::is_blank;

/// The place of the first byte that is no blank.
fn first_other(bytes: &[u8]) -> Option<usize>
    ensures place { result ≡ position (λ byte. not (is_blank byte)) bytes.now }
    ensures within { IfSome result (λ start. start < length bytes.now) }
{
    bytes.iter().position(|byte| !is_blank(*byte))
}

/// The bytes from the first on that is no blank.
pub(crate) fn behind_blanks<'a>(bytes: &'a [u8]) -> &'a [u8]
    ensures { result.now ≡ spec.behind_blanks bytes.now }
{
    match first_other(bytes) {
        Some(start) => &bytes[start..],
        None => &[],
    }
}

/// Whether a byte stands first.
pub(crate) fn begins_with(bytes: &[u8], wanted: u8) -> bool
    ensures { result ≡ spec.begins_with wanted bytes.now }
{
    match bytes.first() {
        Some(byte) => *byte == wanted,
        None => false,
    }
}

/// The bytes behind one that has to stand first.
pub(crate) fn behind_byte<'a>(bytes: &'a [u8], wanted: u8) -> Option<&'a [u8]>
    ensures { shown_bytes result ≡ spec.behind_byte wanted bytes.now }
{
    if begins_with(bytes, wanted) {
        Some(&bytes[1..])
    } else {
        None
    }
}
