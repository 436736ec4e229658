//! The word that the linker writes at a relocation.

ghost use Rattle.std.specs.Prelude.{◌≡◌, List};
ghost use Rattle.elf_model.specs.declared.relocatable.RelObject.{RelObject};
ghost use Rattle.link_model.specs.declared.input.Mode.{Mode};
ghost use Rattle.link_model.specs.Inputs.{InputRel};
ghost use Rattle.link_model.specs.Sites as spec;
ghost use Rattle.link_words.specs.parts.Facts.{AreFacts, AreNear, AreLow};

use crate::distance::{branch_to, low_word};
use crate::facts::Facts;
use crate::kinds::is_branch;
use crate::reach::{is_nothing, is_settled};
use arm_relocs::branch_field;
use elf_model::constants as elf;

/// The distance of a branch that goes on with the next instruction, in bytes.
const NEXT: i32 = -4;

impl Facts {
    /// The word of a branch.
    fn branch_word(&self) -> Option<u32>
        requires { AreNear self.now }
        ensures { (mode : Mode) (inputs : List RelObject) (x : InputRel) → AreFacts mode inputs x self.now
            → result ≡ spec.branch_word mode inputs x }
    {
        if is_nothing(self.target.reach) {
            branch_field(self.word, NEXT)
        } else {
            branch_to(self.word, self.place, self.branch_goal())
        }
    }

    /// The word of a symbol that the linker settles.
    fn settled_word(&self) -> Option<u32>
        requires near { AreNear self.now }
        requires low { AreLow self.now }
        ensures { (mode : Mode) (inputs : List RelObject) (x : InputRel) → AreFacts mode inputs x self.now
            → result ≡ spec.settled_word mode inputs x }
    {
        match self.kind {
            elf::R_ARM_ABS32 | elf::R_ARM_TARGET1 => Some(low_word(self.sum())),
            elf::R_ARM_REL32 => Some(low_word(self.sum_from(self.place))),
            elf::R_ARM_GOTOFF32 => Some(low_word(self.sum_from(self.bounds.data_place))),
            elf::R_ARM_FUNCDESC => Some(self.bounds.data_place as u32 + self.offset),
            elf::R_ARM_GOTOFFFUNCDESC => Some(self.offset),
            _ => None,
        }
    }

    /// A word of data.
    fn data_word(&self) -> Option<u32>
        requires near { AreNear self.now }
        requires low { AreLow self.now }
        ensures { (mode : Mode) (inputs : List RelObject) (x : InputRel) → AreFacts mode inputs x self.now
            → result ≡ spec.data_word mode inputs x }
    {
        if self.kind == elf::R_ARM_GOT_BREL || self.kind == elf::R_ARM_GOTFUNCDESC {
            Some(self.offset)
        } else if is_settled(self.target.reach) {
            self.settled_word()
        } else {
            None
        }
    }
}

/// The word that the linker writes at a relocation. None where the input's word stays.
#[tactic(auto, unfolding(link_model::specs::Sites::site_word))]
pub fn word_at(facts: &Facts) -> Option<u32>
    requires near { AreNear facts.now }
    requires low { AreLow facts.now }
    ensures { (mode : Mode) (inputs : List RelObject) (x : InputRel) → AreFacts mode inputs x facts.now
        → result ≡ spec.site_word mode inputs x }
{
    if is_branch(facts.kind) {
        facts.branch_word()
    } else {
        facts.data_word()
    }
}
