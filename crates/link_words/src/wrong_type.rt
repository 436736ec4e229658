//! Whether a relocation can be linked at all: its kind, its addend, its place and its symbol.

ghost use Rattle.std.specs.Prelude.{◌≡◌, List};
ghost use Rattle.elf_model.specs.declared.relocatable.RelObject.{RelObject};
ghost use Rattle.link_model.specs.declared.input.Mode.{Mode};
ghost use Rattle.link_model.specs.Inputs.{InputRel};
ghost use Rattle.link_model.specs.Needs.{target_at};
ghost use Rattle.link_model.specs.SiteTests as spec;
ghost use Rattle.link_words.specs.parts.Facts.{AreFacts};

use crate::facts::Facts;
use crate::kinds::{
    is_branch, is_function_kind, is_got_kind, is_idle, is_known, is_loaded_kind, is_offset_kind,
};
use crate::reach::{is_dynamic, is_nothing, is_nowhere, is_shown};
use elf_model::constants::R_ARM_GOTOFFFUNCDESC;

/// The offset in a branch's word that stands for the addend -8, counted in words of 32 bits.
const CALL_FIELD: u32 = 0xff_fffe;

impl Facts {
    /// An instruction that changes to Thumb code.
    pub(crate) fn is_thumb(&self) -> bool
        ensures { (mode : Mode) (inputs : List RelObject) (x : InputRel) → AreFacts mode inputs x self.now
            → result ≡ spec.is_thumb x }
    {
        is_branch(self.kind) && self.word / (1 << 28) == 15
    }

    /// A word of the GOT or a descriptor with an addend, or a PLT entry with another than that of a call.
    fn has_wrong_addend(&self) -> bool
        ensures { (mode : Mode) (inputs : List RelObject) (x : InputRel) → AreFacts mode inputs x self.now
            → result ≡ spec.has_wrong_addend x (target_at mode inputs x) }
    {
        (is_got_kind(self.kind) && self.word != 0)
            || (is_branch(self.kind)
                && is_dynamic(self.target.reach)
                && self.word % (1 << 24) != CALL_FIELD)
    }

    /// An offset, which only the linker can give, and not of this symbol.
    fn is_unsettled_offset(&self) -> bool
        ensures { (mode : Mode) (inputs : List RelObject) (x : InputRel) → AreFacts mode inputs x self.now
            → result ≡ spec.is_unsettled_offset x.rel.kind (target_at mode inputs x) }
    {
        (is_offset_kind(self.kind) && is_dynamic(self.target.reach))
            || (self.kind == R_ARM_GOTOFFFUNCDESC && is_nothing(self.target.reach))
    }

    /// An address that loading could not fill.
    fn is_unfillable(&self) -> bool
        ensures { (mode : Mode) (inputs : List RelObject) (x : InputRel) → AreFacts mode inputs x self.now
            → result ≡ spec.is_unfillable mode inputs x }
    {
        is_loaded_kind(self.kind) && (!self.is_writable || self.place % 4 != 0)
    }

    /// A symbol in a section that isn't kept, or one of which nothing can be made.
    fn has_unusable_symbol(&self) -> bool
        ensures { (mode : Mode) (inputs : List RelObject) (x : InputRel) → AreFacts mode inputs x self.now
            → result ≡ spec.has_unusable_symbol inputs x }
    {
        self.is_dropped || (!is_idle(self.kind) && self.is_own_undefined)
    }

    /// The descriptor of what is defined, and is no function.
    fn is_no_function(&self) -> bool
        ensures { (mode : Mode) (inputs : List RelObject) (x : InputRel) → AreFacts mode inputs x self.now
            → result ≡ spec.is_no_function inputs x.rel.kind (target_at mode inputs x) }
    {
        is_function_kind(self.kind) && !is_nowhere(self.target.spot) && !self.is_function
    }

    /// Left to the loader, which doesn't see the symbol.
    fn is_unseen(&self) -> bool
        ensures { (mode : Mode) (inputs : List RelObject) (x : InputRel) → AreFacts mode inputs x self.now
            → result ≡ spec.is_unseen x.rel.kind (target_at mode inputs x) }
    {
        !is_idle(self.kind) && is_dynamic(self.target.reach) && !is_shown(&self.target)
    }

    /// Any of these.
    #[tactic(auto, unfolding(link_model::specs::SiteTests::is_wrong_type))]
    pub(crate) fn is_wrong_type(&self) -> bool
        ensures { (mode : Mode) (inputs : List RelObject) (x : InputRel) → AreFacts mode inputs x self.now
            → result ≡ spec.is_wrong_type mode inputs x }
    {
        !is_known(self.kind)
            || self.has_wrong_addend()
            || self.is_unsettled_offset()
            || self.is_unfillable()
            || self.meets_earlier
            || self.has_unusable_symbol()
            || self.is_no_function()
            || self.is_unseen()
    }
}
