//! What stands in the GOT, and what of it is left to the loader.

ghost use Rattle.std.specs.Prelude.{◌≡◌, ℕ, ◌+◌, ◌^◌, ◌<◌, List, true, option_to_list};
ghost use Rattle.elf_model.specs.declared.constants.TheConstants.{R_ARM_RELATIVE};
ghost use Rattle.elf_model.specs.declared.relocatable.RelObject.{RelObject};
ghost use Rattle.link_model.specs.declared.input.Mode.{Mode};
ghost use Rattle.link_model.specs.declared.need.Need.TheVariants.{Word, FuncWord, Descriptor};
ghost use Rattle.link_model.specs.declared.target.Key.{Key};
ghost use Rattle.link_model.specs.DynamicRels as spec;
ghost use Rattle.link_model.specs.Needs.{descriptor_need};
ghost use Rattle.link_model.specs.Places.{need_place, address_of};
ghost use Rattle.link_model.specs.Segments as segments;
ghost use Rattle.link_model.specs.Targets as targets;
ghost use Rattle.link_words.specs.parts.Needs.{IsKeyed, rels_in};

use crate::reach::is_settled;
use crate::rel::address_rel;
use elf_model::Rel;
use elf_model::constants::{R_ARM_FUNCDESC, R_ARM_FUNCDESC_VALUE, R_ARM_GLOB_DAT, R_ARM_RELATIVE};
use link_model::{Mode, Target};

/// What is left to the loader of a function's descriptor.
#[derive(Clone, Copy, PartialEq, Eq)]
pub enum DescriptorRels {
    /// The loader fills both words.
    Filled(Rel),
    /// Each word is an address of a program that stands alone.
    Moved(Rel, Rel),
}

/// What is left to the loader of a word of the GOT with the address of a symbol, by the link address of the word and
/// the number of the symbol among those that the loader sees.
pub fn word_rel(place: u32, target: &Target, symbol: u32) -> Option<Rel>
    ensures { (mode : Mode) (inputs : List RelObject) (key : Key) → place ≡ need_place mode inputs (Word key)
        → IsKeyed mode inputs key target.now symbol → option_to_list result ≡ spec.need_rels mode inputs (Word key) }
{
    address_rel(place, R_ARM_GLOB_DAT, target, symbol)
}

/// What is left to the loader of a word of the GOT with the address of a symbol's descriptor, by the link address of
/// the word and the number of the symbol among those that the loader sees.
pub fn func_word_rel(place: u32, target: &Target, symbol: u32) -> Option<Rel>
    ensures { (mode : Mode) (inputs : List RelObject) (key : Key) → place ≡ need_place mode inputs (FuncWord key)
        → IsKeyed mode inputs key target.now symbol → option_to_list result ≡ spec.need_rels mode inputs (FuncWord key) }
{
    address_rel(place, R_ARM_FUNCDESC, target, symbol)
}

fn moved(site: u32) -> Rel
    ensures { result ≡ record { site = site; kind = R_ARM_RELATIVE; symbol = 0 } }
{
    Rel {
        site,
        kind: R_ARM_RELATIVE,
        symbol: 0,
    }
}

/// What is left to the loader of a descriptor at a link address.
pub fn descriptor_rels(mode: Mode, place: u32) -> DescriptorRels
    requires { place + 4 < 2 ^ 32 }
    ensures { (inputs : List RelObject) (function : ℕ) → place ≡ need_place mode inputs (Descriptor function)
        → rels_in result ≡ spec.need_rels mode inputs (Descriptor function) }
{
    match mode {
        Mode::Static => DescriptorRels::Moved(moved(place), moved(place + 4)),
        Mode::Program | Mode::Shared => DescriptorRels::Filled(Rel {
            site: place,
            kind: R_ARM_FUNCDESC_VALUE,
            symbol: 0,
        }),
    }
}

/// What stands in a word of the GOT with the address of a symbol: S, and 0 until the loader settles it.
pub fn symbol_word(target: &Target, address: u64) -> u32
    ensures { (mode : Mode) (inputs : List RelObject) → address ≡ address_of mode inputs target.now.spot
        → result ≡ segments.symbol_word mode inputs target.now }
{
    if is_settled(target.reach) {
        (address % (1 << 32)) as u32
    } else {
        0
    }
}

/// What stands in a word of the GOT with the address of a symbol's descriptor: the descriptor's link address, and 0
/// until the loader settles it.
pub fn descriptor_word(target: &Target, descriptor: u32) -> u32
    ensures { (mode : Mode) (inputs : List RelObject)
        → (targets.is_settled target.now.reach ≡ true → descriptor ≡ need_place mode inputs (descriptor_need inputs target.now))
        → result ≡ segments.descriptor_word mode inputs target.now }
{
    if is_settled(target.reach) {
        descriptor
    } else {
        0
    }
}
