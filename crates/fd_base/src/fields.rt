//! Fields of a line, each put behind a space.

ghost use Rattle.std.specs.Prelude.{◌≡◌, [], ◌∷◌, ◌++◌, OnOk};
ghost use Rattle.hex.specs.Hex.{encode_lower};
ghost use Rattle.fd_base.specs.Fields as spec;

use crate::name::Name;
use crate::seq::{Bytes, Memory};
use crate::text::{put_dec, put_hex8, put_shown};

/// Puts a word behind a space.
pub fn put_word_field(out: &mut Bytes, word: &[u8]) -> Result<(), Memory>
    ensures { OnOk result (out.new ≡ out.old ++ spec.word_field word.now) }
{
    out.push(b' ')?;
    out.extend_from_slice(word)
}

/// Puts a number behind a space.
pub fn put_decimal_field(out: &mut Bytes, n: u32) -> Result<(), Memory>
    ensures { OnOk result (out.new ≡ out.old ++ spec.decimal_field n) }
{
    out.push(b' ')?;
    put_dec(out, n)
}

/// Puts a count or an index behind a space.
pub fn put_index_field(out: &mut Bytes, n: usize) -> Result<(), Memory>
    ensures { OnOk result (out.new ≡ out.old ++ spec.decimal_field n) }
{
    let mut buffer = itoa::Buffer::new();
    out.push(b' ')?;
    out.extend_from_slice(buffer.format(n).as_bytes())
}

/// Puts `0x` and eight digits behind a space.
pub fn put_hex_field(out: &mut Bytes, n: u32) -> Result<(), Memory>
    ensures { OnOk result (out.new ≡ out.old ++ spec.hex_field n) }
{
    out.push(b' ')?;
    put_hex8(out, n)
}

/// Puts a name behind a space, a dash where there is none.
pub fn put_name_field(out: &mut Bytes, name: &Option<Name>) -> Result<(), Memory>
    ensures { OnOk result (out.new ≡ out.old ++ spec.name_field name.now) }
{
    match name {
        None => put_word_field(out, b"-"),
        Some(name) => {
            out.push(b' ')?;
            put_shown(out, name)
        }
    }
}

/// Puts the two digits of a byte.
#[tactic(auto, unfolding(hex::specs::Hex::encode_with))]
fn put_byte(out: &mut Bytes, byte: u8) -> Result<(), Memory>
    ensures { OnOk result (out.new ≡ out.old ++ encode_lower (byte ∷ [])) }
{
    let mut digits = *b"00";
    let _ = hex::encode_to_slice([byte], &mut digits);
    out.extend_from_slice(&digits)
}

/// Puts the digits of bytes, two for each.
#[tactic(auto, unfolding(hex::specs::Hex::encode_with))]
fn put_bytes(out: &mut Bytes, bytes: &[u8]) -> Result<(), Memory>
    ensures { OnOk result (out.new ≡ out.old ++ encode_lower bytes.now) }
{
    for byte in bytes {
        put_byte(out, *byte)?;
    }
    Ok(())
}

/// Puts the digits of bytes behind a space, a dash where there is none.
pub fn put_digits_field(out: &mut Bytes, bytes: &[u8]) -> Result<(), Memory>
    ensures { OnOk result (out.new ≡ out.old ++ spec.digits_field bytes.now) }
{
    if bytes.is_empty() {
        return put_word_field(out, b"-");
    }
    out.push(b' ')?;
    put_bytes(out, bytes)
}
