//! The entry at one link address.

ghost use Rattle.std.specs.Prelude.{◌≡◌, ◌+◌, ◌^◌, ◌<◌, true, IfSome, length, position};
ghost use Rattle.elf_model.specs.Sound.{IsSound};
ghost use Rattle.plt_code.specs.Entries as spec;

use crate::standing::{is_code_in, is_near, stands_call};
use elf_model::{Object, Rel, file_word};

/// The size of an entry, in bytes: the words of a call and the slot's offset.
const ENTRY_SIZE: u32 = 20;

/// Whether an entry at a link address is that of a slot.
fn is_entry_of(o: &Object, v: u32, rel: &Rel) -> bool
    requires { v + ENTRY_SIZE < 2 ^ 32 }
    ensures { result ≡ spec.is_entry_of o.entry.now v rel.now }
{
    let segments = o.segments.as_slice();
    rel.site.wrapping_sub(o.got) == file_word(segments, v + 16)
        && is_near(segments, rel.site, o.got)
}

/// Whether the words of a call stand in the code at a link address.
#[tactic(auto, unfolding(crate::specs::Entries::is_call))]
fn is_call(o: &Object, v: u32) -> bool
    requires { IsSound o.now }
    ensures value { result ≡ spec.is_call o.entry.now v }
    ensures small { result ≡ true → v + ENTRY_SIZE < 2 ^ 32 }
{
    let segments = o.segments.as_slice();
    v % 4 == 0 && is_code_in(segments, v, ENTRY_SIZE) && stands_call(segments, v)
}

/// The place of the slot that an entry at a link address leads to.
fn place_entered(o: &Object, v: u32) -> Option<usize>
    requires { v + ENTRY_SIZE < 2 ^ 32 }
    ensures value { result ≡ position (spec.is_entry_of o.entry.now v) o.entry.now.jmprels }
    ensures within { IfSome result (λ place. place < length o.entry.now.jmprels) }
{
    o.jmprels
        .as_slice()
        .iter()
        .position(|rel| is_entry_of(o, v, rel))
}

/// The slot whose entry stands at a link address of an object. It takes no memory.
pub fn slot_entered(o: &Object, v: u32) -> Option<u32>
    requires { IsSound o.now }
    ensures { result ≡ spec.slot_entered o.entry.now v }
{
    if !is_call(o, v) {
        return None;
    }
    match place_entered(o, v) {
        Some(place) => Some(place as u32),
        None => None,
    }
}
