//! Bytes, words and other values put into lists and read from them.

ghost use Rattle.std.specs.Prelude.{◌≡◌, ℕ, get_or, ◌+◌, ◌*◌, ◌<◌, ◌≤◌, ◌^◌, length};
ghost use Rattle.std.specs.List.{flat_map};
ghost use Rattle.byteorder.specs.Endian.{little_bytes};
ghost use Rattle.guest_mem.specs.Accesses.{words_in};
ghost use Rattle.guest_mem.specs.Ranges.{filled, pasted};

use byteorder::{ByteOrder, LittleEndian};
use fd_base::word_in;

/// What is true of each byte, for a caller's proof. It does nothing.
pub fn are_bytes(bytes: &[u8])
    ensures { (a : ℕ) → get_or bytes.now a 0 < 256 }
{
    let _count = bytes.len();
}

/// One value at each of `len` places.
#[tactic(auto)]
pub fn fill<T: Copy>(values: &mut [T], start: usize, len: usize, value: T)
    requires { start + len ≤ length values.old }
    ensures { values.new ≡ filled values.old start len value }
{
    for i in 0..len {
        values[start + i] = value;
    }
}

/// Bytes over others.
#[inline]
pub fn paste(bytes: &mut [u8], at: usize, new: &[u8])
    requires { at + length new.now ≤ length bytes.old }
    ensures { bytes.new ≡ pasted bytes.old at new.now }
{
    bytes[at..at + new.len()].copy_from_slice(new);
}

/// How many bytes words take.
#[tactic(auto, using(crate::proofs::Words::lengths))]
pub fn byte_len(values: &[u32]) -> u32
    requires { 4 * length values.now < 2 ^ 32 }
    ensures bytes { result ≡ length (flat_map (little_bytes 4) values.now) }
    ensures words { result ≡ 4 * length values.now }
{
    4 * values.len() as u32
}

/// Words over bytes.
pub fn put_words(bytes: &mut [u8], at: usize, values: &[u32])
    requires { at + 4 * length values.now ≤ length bytes.old }
    ensures { bytes.new ≡ pasted bytes.old at (flat_map (little_bytes 4) values.now) }
{
    LittleEndian::write_u32_into(values, &mut bytes[at..at + 4 * values.len()]);
}

/// Words read from bytes.
#[tactic(auto, unfolding(fd_base::specs::Words::word_in))]
pub fn get_words(bytes: &[u8], at: usize, values: &mut [u32])
    requires { at + 4 * length values.old ≤ length bytes.now }
    ensures { values.new ≡ words_in bytes.now at (length values.old) }
{
    let mut from = at;
    for value in values.iter_mut() {
        *value = word_in(bytes, from);
        from += 4;
    }
}
