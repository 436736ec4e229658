//! What lies at link addresses.

ghost use Rattle.std.specs.Prelude.{◌≡◌, ◌+◌, ◌^◌, ◌≤◌, slice_index};
ghost use Rattle.elf_model.specs.Places as spec;

use crate::constants::{PF_W, PF_X};
use crate::object::Segment;
use fd_base::word_in;

impl Segment {
    /// Whether a link address is in the segment's memory.
    pub fn holds(&self, v: u32) -> bool
        ensures { result ≡ spec.is_held_in self.now v }
    {
        let end = u64::from(self.vaddr) + u64::from(self.memsz);
        self.vaddr <= v && u64::from(v) < end
    }

    /// Whether `n` bytes at a link address are in the segment's memory.
    pub fn spans(&self, v: u32, n: u32) -> bool
        ensures { result ≡ spec.spans self.now v n }
    {
        let end = u64::from(self.vaddr) + u64::from(self.memsz);
        self.vaddr <= v && u64::from(v) + u64::from(n) <= end
    }

    /// Whether instructions may be fetched from it.
    pub fn is_executable(&self) -> bool
        ensures { result ≡ spec.is_executable self.now }
    {
        self.flags & PF_X != 0
    }

    /// Whether it may be written.
    pub fn is_writable(&self) -> bool
        ensures { result ≡ spec.is_writable self.now }
    {
        self.flags & PF_W != 0
    }
}

/// Whether a link address is in the memory of an executable segment.
pub fn is_executable_in(segments: &[Segment], v: u32) -> bool
    ensures { result ≡ spec.is_executable_in segments.now v }
{
    segments
        .iter()
        .any(|segment| segment.is_executable() && segment.holds(v))
}

fn byte_or_zero(bytes: &[u8], i: usize) -> u8
    ensures { result ≡ slice_index bytes.now i }
{
    if i < bytes.len() { bytes[i] } else { 0 }
}

fn byte_at(segments: &[Segment], v: u32) -> u8
    ensures { result ≡ spec.file_byte segments.now v }
{
    for segment in segments {
        if segment.holds(v) {
            return byte_or_zero(segment.filled.as_slice(), (v - segment.vaddr) as usize);
        }
    }
    0
}

/// The file's word at a link address, little-endian, with zeros past the file's bytes.
pub fn file_word(segments: &[Segment], v: u32) -> u32
    requires { v + 4 ≤ 2 ^ 32 }
    ensures { result ≡ spec.file_word segments.now v }
{
    let word = [
        byte_at(segments, v),
        byte_at(segments, v + 1),
        byte_at(segments, v + 2),
        byte_at(segments, v + 3),
    ];
    word_in(&word, 0)
}
