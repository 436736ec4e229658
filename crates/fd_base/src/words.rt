//! Little-endian words and halfwords in bytes. Places are counted in bytes from 0.

ghost use Rattle.std.specs.Prelude.{◌≡◌, ◌+◌, ◌++◌, ◌≤◌, length, is_ok, if◌then◌else◌, OnOk};
ghost use Rattle.byteorder.specs.Endian.{little_bytes};
ghost use Rattle.fd_base.specs.Words as spec;

use crate::seq::{Memory, Seq};
use byteorder::{ByteOrder, LittleEndian};

/// The word at a place that is known to lie in the bytes.
#[tactic(auto, unfolding(crate::specs::Words::word_in))]
pub fn word_in(bytes: &[u8], at: usize) -> u32
    requires { at + 4 ≤ length bytes.now }
    ensures { result ≡ spec.word_in bytes.now at }
{
    LittleEndian::read_u32(&bytes[at..])
}

/// The halfword at a place that is known to lie in the bytes.
#[tactic(auto, unfolding(crate::specs::Words::half_in))]
pub fn half_in(bytes: &[u8], at: usize) -> u16
    requires { at + 2 ≤ length bytes.now }
    ensures { result ≡ spec.half_in bytes.now at }
{
    LittleEndian::read_u16(&bytes[at..])
}

/// The word at a place. None exactly where it passes the end.
pub fn word_at(bytes: &[u8], at: u32) -> Option<u32>
    ensures { result ≡ spec.word_at bytes.now at }
{
    let at = at as usize;
    if at + 4 <= bytes.len() {
        Some(word_in(bytes, at))
    } else {
        None
    }
}

/// The halfword at a place. None exactly where it passes the end.
pub fn half_at(bytes: &[u8], at: u32) -> Option<u16>
    ensures { result ≡ spec.half_at bytes.now at }
{
    let at = at as usize;
    if at + 2 <= bytes.len() {
        Some(half_in(bytes, at))
    } else {
        None
    }
}

/// Puts a word at a place that is known to lie in the bytes. The other bytes stay.
pub fn put_word(bytes: &mut [u8], at: u32, v: u32)
    requires { at + 4 ≤ length bytes.old }
    ensures { bytes.new ≡ spec.with_word bytes.old at v }
{
    LittleEndian::write_u32(&mut bytes[at as usize..], v);
}

impl Seq<u8> {
    /// Puts a halfword at the end. Without memory the bytes stay.
    pub fn push_half(&mut self, v: u16) -> Result<(), Memory>
        ensures { self.new ≡ (if is_ok result then self.old ++ little_bytes 2 v else self.old) }
    {
        self.extend_from_slice(&v.to_le_bytes())
    }

    /// Puts a word at the end. Without memory the bytes stay.
    pub fn push_word(&mut self, v: u32) -> Result<(), Memory>
        ensures { self.new ≡ (if is_ok result then self.old ++ little_bytes 4 v else self.old) }
    {
        self.extend_from_slice(&v.to_le_bytes())
    }

    /// Puts words at the end. Without memory some of them may stand there.
    pub fn push_words(&mut self, words: &[u32]) -> Result<(), Memory>
        ensures { OnOk result (self.new ≡ self.old ++ spec.word_bytes words.now) }
    {
        for word in words {
            self.push_word(*word)?;
        }
        Ok(())
    }
}
