//! Where things stand in a GOT.

ghost use Rattle.std.specs.Prelude.{◌≡◌, ◌+◌, ◌≤◌, ◌^◌, length, IfOk};
ghost use Rattle.link_model.specs.GotLayout as spec;
ghost use Rattle.link_model.specs.Needs.{kind_of};
ghost use Rattle.link_places.specs.parts.Got.{AreOffsets, kinds_of, is_word_need, is_descriptor_need, place_for, next_after, next_behind};

use elf_model::constants::GOT_HEADER_SIZE;
use fd_base::{Memory, Seq};
use link_model::Need;
use std::alloc::Global;

/// Where needs stand in the GOT, in bytes from its begin.
#[derive(Drop)]
pub(crate) struct GotOffsets {
    /// The offset of each need, in their order.
    pub(crate) offsets: Seq<u32>,
    /// Where the first of each kind stands.
    pub(crate) first: Next,
    /// The size of all.
    pub(crate) size: u32,
}

/// Where the next of each kind goes.
#[derive(Clone, Copy)]
pub(crate) struct Next {
    word: u32,
    descriptor: u32,
    pub(crate) slot: u32,
}

fn is_word(need: &Need) -> bool
    ensures { result ≡ is_word_need need.now }
{
    matches!(need, Need::Word(_) | Need::FuncWord(_))
}

fn is_descriptor(need: &Need) -> bool
    ensures { result ≡ is_descriptor_need need.now }
{
    matches!(need, Need::Descriptor(_) | Need::NoFunction(_))
}

impl Next {
    /// Where the first of each kind goes.
    fn first(needs: &[Need]) -> Next
        requires { length needs.now ≤ 65536 }
        ensures { result ≡ record {
          word = GOT_HEADER_SIZE;
          descriptor = spec.descriptors_start (kinds_of needs.now);
          slot = spec.slots_start (kinds_of needs.now);
        } }
    {
        let words = needs.iter().filter(|need| is_word(need)).count() as u32;
        let descriptors = needs.iter().filter(|need| is_descriptor(need)).count() as u32;
        let descriptor = GOT_HEADER_SIZE + 4 * words;
        Next {
            word: GOT_HEADER_SIZE,
            descriptor,
            slot: descriptor + 8 * descriptors,
        }
    }

    /// Where the next of a need's kind goes.
    pub(crate) fn place(&self, need: &Need) -> u32
        ensures { result ≡ place_for (kind_of need.now) self.now }
    {
        match need {
            Need::Word(_) | Need::FuncWord(_) => self.word,
            Need::Descriptor(_) | Need::NoFunction(_) => self.descriptor,
            Need::Slot(_) => self.slot,
        }
    }

    /// Where a need goes that is the next of its kind.
    fn take(&mut self, need: &Need) -> u32
        requires few { self.old.word + self.old.descriptor + self.old.slot ≤ 2 ^ 31 }
        ensures place { result ≡ place_for (kind_of need.now) self.old }
        ensures next { self.new ≡ next_after (kind_of need.now) self.old }
    {
        match need {
            Need::Word(_) | Need::FuncWord(_) => {
                let place = self.word;
                self.word += 4;
                place
            }
            Need::Descriptor(_) | Need::NoFunction(_) => {
                let place = self.descriptor;
                self.descriptor += 8;
                place
            }
            Need::Slot(_) => {
                let place = self.slot;
                self.slot += 8;
                place
            }
        }
    }
}

impl GotOffsets {
    /// The offset of each need, and the size of all.
    pub(crate) fn new(alloc: Global, needs: &[Need]) -> Result<GotOffsets, Memory>
        requires { length needs.now ≤ 65536 }
        ensures offsets { IfOk result (λ got. AreOffsets needs.now got.offsets) }
        ensures first { IfOk result (λ got. got.first ≡ next_behind (kinds_of needs.now) 0) }
        ensures size { IfOk result (λ got. got.size ≡ spec.got_size (kinds_of needs.now)) }
    {
        let mut next = Next::first(needs);
        let first = next;
        let mut offsets = Seq::new(alloc);
        for need in needs {
            offsets.push(next.take(need))?;
        }
        Ok(GotOffsets {
            offsets,
            first,
            size: next.slot,
        })
    }
}
