//! What is left to the loader at a relocation.

ghost use Rattle.std.specs.Prelude.{◌≡◌, List, true, option_to_list};
ghost use Rattle.elf_model.specs.declared.relocatable.RelObject.{RelObject};
ghost use Rattle.link_model.specs.declared.input.Mode.{Mode};
ghost use Rattle.link_model.specs.DynamicSymbols.{symbol_index};
ghost use Rattle.link_model.specs.Inputs.{InputRel};
ghost use Rattle.link_model.specs.Sites as spec;
ghost use Rattle.link_model.specs.Targets as targets;
ghost use Rattle.link_words.specs.parts.Facts.{AreFacts, AreLow};

use crate::facts::Facts;
use crate::kinds::is_address_kind;
use crate::reach::{is_absolute, is_dynamic, is_settled};
use elf_model::Rel;
use elf_model::constants::{R_ARM_ABS32, R_ARM_FUNCDESC, R_ARM_RELATIVE};
use link_model::Target;

/// What is left to the loader of a word with the address of a symbol, or with that of its descriptor: the
/// symbol of this number, or the move of its segment.
pub(crate) fn address_rel(site: u32, kind: u8, target: &Target, symbol: u32) -> Option<Rel>
    ensures { (mode : Mode) (inputs : List RelObject)
        → (targets.is_dynamic target.now.reach ≡ true → symbol ≡ symbol_index mode inputs target.now.key)
        → option_to_list result ≡ spec.address_rels mode inputs site kind target.now }
{
    if is_dynamic(target.reach) {
        return Some(Rel { site, kind, symbol });
    }
    if !is_settled(target.reach) || is_absolute(target.spot) {
        return None;
    }
    Some(Rel {
        site,
        kind: R_ARM_RELATIVE,
        symbol: 0,
    })
}

/// The relocation that the loader is to fill at a relocation of an input, if one.
#[tactic(auto, unfolding(link_model::specs::Sites::site_rels))]
pub fn rel_at(facts: &Facts) -> Option<Rel>
    requires { AreLow facts.now }
    ensures { (mode : Mode) (inputs : List RelObject) (x : InputRel) → AreFacts mode inputs x facts.now
        → option_to_list result ≡ spec.site_rels mode inputs x }
{
    let site = facts.place as u32;
    if is_address_kind(facts.kind) {
        address_rel(site, R_ARM_ABS32, &facts.target, facts.symbol)
    } else if facts.kind == R_ARM_FUNCDESC {
        address_rel(site, R_ARM_FUNCDESC, &facts.target, facts.symbol)
    } else {
        None
    }
}
