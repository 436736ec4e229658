//! The calls of the resolver, to which unbound slots lead.

ghost use Rattle.std.specs.Prelude.{◌≡◌, ◌+◌, ◌^◌, ◌<◌, All, slice_get};
ghost use Rattle.elf_model.specs.Sound.{IsSized, IsSound};
ghost use Rattle.plt_code.specs.Entries as spec;

use crate::standing::{is_code_in, stand_at};
use crate::words::{LDR_PC_R9, LDR_R12_L2, LDR_R12_R9, PUSH_R12};
use elf_model::constants::REL_SIZE;
use elf_model::{Object, Rel, Segment, file_word};

/// The size of a call of the resolver, in bytes: L2 and four words.
const LAZY_SIZE: u32 = 20;

/// Whether slot k's call of the resolver stands in the code from a link address on.
fn is_lazy_from(segments: &[Segment], k: u32, v: u32) -> bool
    requires sized { All IsSized segments.now }
    requires small { k < 2 ^ 29 }
    ensures { result ≡ spec.is_lazy_from segments.now k v }
{
    let words = [REL_SIZE * k, LDR_R12_L2, PUSH_R12, LDR_R12_R9, LDR_PC_R9];
    is_code_in(segments, v, LAZY_SIZE) && stand_at(segments, v, &words)
}

/// Whether slot k's call of the resolver has its first instruction at `z`.
fn is_lazy(segments: &[Segment], k: u32, z: u32) -> bool
    requires sized { All IsSized segments.now }
    requires small { k < 2 ^ 29 }
    ensures { result ≡ spec.is_lazy segments.now k z }
{
    z % 4 == 0 && z >= 4 && is_lazy_from(segments, k, z - 4)
}

/// Where the word at a site leads, where slot k's call of the resolver stands there.
fn lazy_at(segments: &[Segment], k: u32, site: u32) -> Option<u32>
    requires sized { All IsSized segments.now }
    requires small { k < 2 ^ 29 }
    requires site { site + 8 < 2 ^ 32 }
    ensures { result ≡ spec.lazy_at segments.now k site }
{
    let z = file_word(segments, site);
    if is_lazy(segments, k, z) {
        Some(z)
    } else {
        None
    }
}

/// The relocation of slot k.
fn slot_of(slots: &[Rel], k: u32) -> Option<Rel>
    ensures { result ≡ slice_get slots.now k }
{
    slots.get(k as usize).copied()
}

/// Where slot k leads at first: the file's word at its site, where the slot's call of the resolver stands there,
/// whole in the file's bytes of an executable segment, with 8 k in the word before it. None elsewhere, and for a k
/// that is no slot's number.
pub fn lazy_place(o: &Object, k: u32) -> Option<u32>
    requires { IsSound o.now }
    ensures { result ≡ spec.lazy_place o.entry.now k }
{
    match slot_of(o.jmprels.as_slice(), k) {
        Some(slot) => lazy_at(o.segments.as_slice(), k, slot.site),
        None => None,
    }
}
