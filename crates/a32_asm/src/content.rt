//! The bytes of a section.

ghost use Rattle.std.specs.Prelude.{◌≡◌, ◌++◌, ◌∷◌, [], OnOk, replicate};
ghost use Rattle.byteorder.specs.Endian.{little_bytes};
ghost use Rattle.a32_asm.specs.Shown.{shown_put};

use crate::put::Put;
use fd_base::{Bytes, Memory};

/// Puts a word at the end.
fn put_word(out: &mut Bytes, word: u32) -> Result<(), Memory>
    ensures { OnOk result (out.new ≡ out.old ++ little_bytes 4 word) }
{
    out.push_words(&[word])
}

/// Puts zero bytes at the end.
fn put_zeros(out: &mut Bytes, n: u32) -> Result<(), Memory>
    ensures { OnOk result (out.new ≡ out.old ++ replicate n 0) }
{
    for _ in 0..n {
        out.push(0)?;
    }
    Ok(())
}

/// Puts a string and a zero byte at the end.
fn put_text(out: &mut Bytes, bytes: &[u8]) -> Result<(), Memory>
    ensures { OnOk result (out.new ≡ out.old ++ (bytes.now ++ 0 ∷ [])) }
{
    out.extend_from_slice(bytes)?;
    out.push(0)
}

/// Puts the bytes of a statement at the end.
pub(crate) fn put_bytes(out: &mut Bytes, put: &Put) -> Result<(), Memory>
    ensures { OnOk result (out.new ≡ out.old ++ (shown_put put.now).bytes) }
{
    match *put {
        Put::Nothing => Ok(()),
        Put::Word(word) => put_word(out, word),
        Put::WordOf {
            word,
            kind: _,
            name: _,
        } => put_word(out, word),
        Put::Byte(byte) => out.push(byte),
        Put::Text(bytes) => put_text(out, bytes),
        Put::Zeros(n) => put_zeros(out, n),
    }
}
