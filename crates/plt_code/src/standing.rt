//! What stands in the executable segments of an object.

ghost use Rattle.std.specs.Prelude.{◌≡◌, ◌+◌, ◌*◌, ◌^◌, ◌<◌, ◌≤◌, true, length, All};
ghost use Rattle.elf_model.specs.Places as place;
ghost use Rattle.elf_model.specs.Sound.{IsSized};
ghost use Rattle.plt_code.specs.Standing as spec;
ghost use Rattle.plt_code.specs.Words.{call_words};

use crate::words::{ADD_R12_R9, LDR_PC_R12, LDR_R9_R12, LDR_R12_L1};
use elf_model::constants::PF_X;
use elf_model::{Segment, file_word};

/// The size of a slot, in bytes: the words of a function's address and of its GOT.
const SLOT_SIZE: u32 = 8;
/// The size of the header of the GOT, in bytes.
const GOT_HEADER_SIZE: u32 = 12;

/// Whether `n` bytes at a link address are among the file's bytes of a segment.
fn is_filled(segment: &Segment, v: u32, n: u32) -> bool
    requires { IsSized segment.now }
    ensures { result ≡ spec.is_filled segment.now v n }
{
    let end = u64::from(segment.vaddr) + segment.filled.len() as u64;
    segment.vaddr <= v && u64::from(v) + u64::from(n) <= end
}

/// Whether `n` bytes at a link address are among the file's bytes of one executable segment.
pub fn is_code_in(segments: &[Segment], v: u32, n: u32) -> bool
    requires { All IsSized segments.now }
    ensures value { result ≡ spec.is_code_in segments.now v n }
    ensures small { result ≡ true → v + n < 2 ^ 32 }
{
    segments.iter().any(|segment| segment.flags & PF_X != 0 && is_filled(segment, v, n))
}

/// Whether these are the file's words from a link address on.
pub fn stand_at(segments: &[Segment], v: u32, words: &[u32]) -> bool
    requires { v + 4 * length words.now ≤ 2 ^ 32 }
    ensures { result ≡ spec.stand_at segments.now v words.now }
{
    for (i, word) in words.iter().enumerate() {
        if file_word(segments, v + 4 * i as u32) != *word {
            return false;
        }
    }
    true
}

/// Whether the words of a call stand at a link address.
pub(crate) fn stands_call(segments: &[Segment], v: u32) -> bool
    requires { v + 20 ≤ 2 ^ 32 }
    ensures { result ≡ spec.stand_at segments.now v call_words }
{
    stand_at(
        segments,
        v,
        &[LDR_R12_L1, ADD_R12_R9, LDR_R9_R12, LDR_PC_R12],
    )
}

/// Whether `n` bytes at a link address are in the memory of a segment.
pub fn spans(segment: &Segment, v: u32, n: u32) -> bool
    ensures { result ≡ place.spans segment.now v n }
{
    let end = u64::from(segment.vaddr) + u64::from(segment.memsz);
    segment.vaddr <= v && u64::from(v) + u64::from(n) <= end
}

/// Whether the two words at a site and the header of the GOT are in the memory of one segment.
pub fn is_near(segments: &[Segment], site: u32, got: u32) -> bool
    ensures { result ≡ spec.is_near segments.now site got }
{
    segments.iter().any(|segment| spans(segment, site, SLOT_SIZE)
        && spans(segment, got, GOT_HEADER_SIZE))
}
