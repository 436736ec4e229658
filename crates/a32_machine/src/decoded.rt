//! Words that have been decoded, so that a loop decodes each of its words once.

ghost use Rattle.std.specs.Prelude.{◌≡◌, ◌<◌, All, IfOk, Some, option_map, length};
ghost use Rattle.a32_isa.specs.Decoding.{decode_of};

use a32_isa::{Instr, decode};
use fd_base::Memory;
use std::alloc::Global;

/// How many words are kept.
const PLACES: usize = 4_096;

/// NOP.
const NO_OPERATION: u32 = 0xe320_f000;

/// A word and the instruction that it is.
#[derive(Clone, Copy)]
struct DecodedWord {
    word: u32,
    instr: Instr,
    ghost decoded: { decode_of word ≡ Some instr },
}

/// Words with their instructions, each at the place that the address where it was fetched last chooses. What is at an address now
/// doesn't matter: a place is asked by the word too.
#[derive(Drop)]
pub struct DecodedWords {
    places: Vec<DecodedWord>,
    ghost size: { length places.items ≡ 4096 },
}

/// The instruction that changes nothing.
fn no_operation() -> DecodedWord
    ensures { result.word ≡ 0xe320f000 }
{
    match decode(NO_OPERATION) {
        Some(instr) => DecodedWord {
            word: NO_OPERATION,
            instr,
        },
        None => unreachable!(),
    }
}

impl DecodedWords {
    /// As many as are kept, all of them NOP.
    pub fn new(alloc: Global) -> Result<Self, Memory>
        ensures { IfOk result (λ words. All (λ place. place.word ≡ 0xe320f000) words.places.items) }
    {
        let places = vec![in alloc; no_operation(); PLACES]?;
        Ok(DecodedWords { places })
    }

    /// Decodes a word, and keeps it at a place if it is an instruction's.
    #[cold]
    #[inline(never)]
    fn learn(&mut self, place: usize, word: u32) -> Option<&Instr>
        requires { place < length self.old.places.items }
        ensures { option_map (λ i. i.now) result ≡ decode_of word }
    {
        match decode(word) {
            Some(instr) => {
                self.places[place] = DecodedWord { word, instr };
                Some(&self.places[place].instr)
            }
            None => None,
        }
    }

    /// The instruction of a word that was fetched at an address.
    #[inline(always)]
    pub(crate) fn instruction(&mut self, addr: u32, word: u32) -> Option<&Instr>
        ensures { option_map (λ i. i.now) result ≡ decode_of word }
    {
        let place = (addr / 4) as usize % PLACES;
        if self.places[place].word == word {
            return Some(&self.places[place].instr);
        }
        self.learn(place, word)
    }
}
