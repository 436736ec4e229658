//! Numbers and names as text.

ghost use Rattle.std.specs.Prelude.{◌≡◌, ◌++◌, ◌≤◌, length, take, drop, decimal, is_ok, OnOk, if◌then◌else◌};
ghost use Rattle.std.specs.Char.{is_digit};
ghost use Rattle.std.specs.List.{list_all};
ghost use Rattle.fd_base.specs.Texts.{number_of, numeral_of, hex8, shown, shown_byte};

use crate::name::Name;
use crate::seq::{Bytes, Memory};

/// Whether all bytes are digits of the base.
fn are_digits(bytes: &[u8], base: u32) -> bool
    requires low { 2 ≤ base }
    requires high { base ≤ 36 }
    ensures { result ≡ list_all (λ byte. is_digit byte base) bytes.now }
{
    bytes.iter().all(|byte| char::from(*byte).is_digit(base))
}

/// The number that 1 to `most` digits of a base stand for. None for anything else, and where it needs
/// more than 32 bits.
#[tactic(auto, using(crate::proofs::Numerals::numerals))]
fn numeral(digits: &[u8], base: u32, most: usize) -> Option<u32>
    requires low { 2 ≤ base }
    requires high { base ≤ 36 }
    ensures { result ≡ numeral_of base most digits.now }
{
    if digits.len() > most || !are_digits(digits, base) {
        return None;
    }
    let text = str::from_utf8(digits).ok()?;
    u32::from_str_radix(text, base).ok()
}

/// The number of a field: `0x` and 1 to 8 hexadecimal digits of either case, or 1 to 10 decimal digits,
/// with a value below 2^32. None for everything else.
#[tactic(auto, unfolding(crate::specs::Texts::number_of))]
pub fn number(field: &[u8]) -> Option<u32>
    ensures { result ≡ number_of field.now }
{
    match field.strip_prefix(b"0x") {
        Some(digits) => numeral(digits, 16, 8),
        None => numeral(field, 10, 10),
    }
}

/// Puts the decimal digits of a number at the end.
pub fn put_dec(out: &mut Bytes, n: u32) -> Result<(), Memory>
    ensures { out.new ≡ (if is_ok result then out.old ++ decimal n else out.old) }
{
    let mut buffer = itoa::Buffer::new();
    out.extend_from_slice(buffer.format(n).as_bytes())
}

/// Puts `0x` and the eight lower-case hexadecimal digits of a number at the end.
#[tactic(auto, unfolding(crate::specs::Texts::hex8))]
pub fn put_hex8(out: &mut Bytes, n: u32) -> Result<(), Memory>
    ensures { out.new ≡ (if is_ok result then out.old ++ hex8 n else out.old) }
{
    let mut text = *b"0x00000000";
    let _ = hex::encode_to_slice(n.to_be_bytes(), &mut text[2..]);
    out.extend_from_slice(&text)
}

/// Puts one byte of a name at the end, as it is shown.
#[tactic(auto, unfolding(crate::specs::Texts::shown_byte))]
fn put_shown_byte(out: &mut Bytes, byte: u8) -> Result<(), Memory>
    ensures { out.new ≡ (if is_ok result then out.old ++ shown_byte byte else out.old) }
{
    if byte.is_ascii_graphic() && byte != b'%' {
        return out.push(byte);
    }
    let mut text = *b"%00";
    let _ = hex::encode_to_slice([byte], &mut text[1..]);
    out.extend_from_slice(&text)
}

/// Puts the bytes of a name at the end, as they are shown, or some of them.
fn put_shown_bytes(out: &mut Bytes, bytes: &[u8]) -> Result<(), Memory>
    ensures all { OnOk result (out.new ≡ out.old ++ shown bytes.now) }
    ensures before { take (length out.old) out.new ≡ out.old }
{
    for byte in bytes {
        put_shown_byte(out, *byte)?;
    }
    Ok(())
}

/// Puts a name at the end: its bytes from `!` to `~` other than `%` as they are, and every other byte as
/// `%` and two lower-case hexadecimal digits.
pub fn put_shown(out: &mut Bytes, name: &Name) -> Result<(), Memory>
    ensures { out.new ≡ (if is_ok result then out.old ++ shown name.now else out.old) }
{
    let before = out.len();
    let answer = put_shown_bytes(out, name.as_slice());
    if answer.is_err() {
        out.truncate(before);
    }
    answer
}
