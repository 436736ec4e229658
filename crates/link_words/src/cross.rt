//! Whether a relocation leads out of its segment, or further than it reaches.

ghost use Rattle.std.specs.Prelude.{◌≡◌, ◌+◌, ◌%◌, ◌^◌, ◌<◌, ◌≤ℤ◌, ◌-ℤ◌, ◌&&◌, ◌==◌, List, int_le, int_lt, not, pos, negsuc, unsigned_abs};
ghost use Rattle.arm_relocs.specs.Branch.{is_distance};
ghost use Rattle.elf_model.specs.declared.relocatable.RelObject.{RelObject};
ghost use Rattle.link_model.specs.declared.input.Mode.{Mode};
ghost use Rattle.link_model.specs.Inputs.{InputRel};
ghost use Rattle.link_model.specs.Needs.{target_at};
ghost use Rattle.link_model.specs.Places as places;
ghost use Rattle.link_model.specs.Sections.{is_writable};
ghost use Rattle.link_model.specs.Sites as sites;
ghost use Rattle.link_model.specs.SiteTests as spec;
ghost use Rattle.link_words.specs.parts.Facts.{AreFacts, AreNear};

use crate::distance::{above, is_step};
use crate::facts::Facts;
use crate::kinds::{is_address_kind, is_branch, is_distance_kind};
use crate::reach::{is_absolute, is_dynamic, is_nothing, is_settled};
use arm_relocs::branch_addend;
use elf_model::constants::{R_ARM_GOTOFF32, R_ARM_REL32};

impl Facts {
    /// A: what the input's word adds.
    fn addend(&self) -> i32
        ensures { (mode : Mode) (inputs : List RelObject) (x : InputRel) → AreFacts mode inputs x self.now
            → result ≡ sites.addend_of x }
    {
        if is_branch(self.kind) {
            branch_addend(self.word)
        } else {
            self.word.cast_signed()
        }
    }

    /// S + A.
    pub(crate) fn sum(&self) -> i64
        requires { AreNear self.now }
        ensures value { (mode : Mode) (inputs : List RelObject) (x : InputRel) → AreFacts mode inputs x self.now
            → result ≡ sites.sum_of mode inputs x }
        ensures low { negsuc 4294967295 ≤ℤ result }
        ensures high { result ≤ℤ pos 2305843013508661248 }
    {
        self.address as i64 + i64::from(self.addend())
    }

    /// S + A from a link address on.
    pub(crate) fn sum_from(&self, base: u64) -> i64
        requires near { AreNear self.now }
        requires base { base < 2 ^ 61 }
        ensures { (mode : Mode) (inputs : List RelObject) (x : InputRel) → AreFacts mode inputs x self.now
            → result ≡ sites.sum_of mode inputs x -ℤ pos base }
    {
        above(base, self.sum())
    }

    /// Where a branch leads.
    pub(crate) fn branch_goal(&self) -> i64
        requires { AreNear self.now }
        ensures value { (mode : Mode) (inputs : List RelObject) (x : InputRel) → AreFacts mode inputs x self.now
            → result ≡ sites.branch_goal mode inputs x }
        ensures low { negsuc 4611686018427387904 ≤ℤ result }
        ensures high { result ≤ℤ pos 4611686018427387904 }
    {
        if is_dynamic(self.target.reach) {
            self.entry as i64
        } else {
            self.sum() + 8
        }
    }

    /// A branch, or a distance in a segment, to a number.
    fn leads_to_number(&self) -> bool
        ensures { (mode : Mode) (inputs : List RelObject) (x : InputRel) → AreFacts mode inputs x self.now
            → result ≡ spec.leads_to_number x.rel.kind (target_at mode inputs x) }
    {
        (is_branch(self.kind) || is_distance_kind(self.kind)) && is_absolute(self.target.spot)
    }

    /// Whether the word is an instruction of the text.
    fn is_instruction(&self) -> bool
        ensures { (mode : Mode) (inputs : List RelObject) (x : InputRel) → AreFacts mode inputs x self.now
            → result ≡ (not (is_writable x.at) && sites.site_address mode inputs x % 4 == 0) }
    {
        !self.is_writable && self.place % 4 == 0
    }

    /// Whether a branch reaches a link address, which is a multiple of 4.
    fn steps_to(&self, goal: i64) -> bool
        requires near { AreNear self.now }
        requires low { negsuc 4611686018427387904 ≤ℤ goal }
        requires high { goal ≤ℤ pos 4611686018427387904 }
        ensures { (mode : Mode) (inputs : List RelObject) (x : InputRel) → AreFacts mode inputs x self.now
            → result ≡ (unsigned_abs goal % 4 == 0 && is_distance (goal -ℤ pos (sites.site_address mode inputs x + 8))) }
    {
        is_step(self.place, goal)
    }

    /// Whether a link address is a multiple of 4 in the text, and a branch reaches it.
    fn leads_into_text(&self, goal: i64) -> bool
        requires near { AreNear self.now }
        requires low { negsuc 4611686018427387904 ≤ℤ goal }
        requires high { goal ≤ℤ pos 4611686018427387904 }
        ensures { (mode : Mode) (inputs : List RelObject) (x : InputRel) → AreFacts mode inputs x self.now
            → result ≡ ((int_le (pos 0) goal && int_lt goal (pos (places.text_end mode inputs)))
            && (unsigned_abs goal % 4 == 0 && is_distance (goal -ℤ pos (sites.site_address mode inputs x + 8)))) }
    {
        self.bounds.text_holds(goal) && self.steps_to(goal)
    }

    /// From a multiple of 4 in the text to another one, as far as the word reaches.
    fn can_branch(&self) -> bool
        requires { AreNear self.now }
        ensures { (mode : Mode) (inputs : List RelObject) (x : InputRel) → AreFacts mode inputs x self.now
            → result ≡ spec.can_branch mode inputs x }
    {
        self.is_instruction() && self.leads_into_text(self.branch_goal())
    }

    /// S + A in the segment of S, or at its end.
    fn stays_in_segment(&self) -> bool
        requires { AreNear self.now }
        ensures { (mode : Mode) (inputs : List RelObject) (x : InputRel) → AreFacts mode inputs x self.now
            → result ≡ spec.stays_in_segment mode inputs x }
    {
        let sum = self.sum();
        if self.in_text {
            self.bounds.text_reaches(sum)
        } else {
            self.bounds.data_reaches(sum)
        }
    }

    /// S in the text, or at its end.
    fn is_within_text(&self) -> bool
        ensures { (mode : Mode) (inputs : List RelObject) (x : InputRel) → AreFacts mode inputs x self.now
            → result ≡ places.is_within_text mode inputs (target_at mode inputs x).spot }
    {
        self.in_text && self.address <= self.bounds.text_end
    }

    /// S in the data, or at its end.
    fn is_within_data(&self) -> bool
        ensures { (mode : Mode) (inputs : List RelObject) (x : InputRel) → AreFacts mode inputs x self.now
            → result ≡ places.is_within_data mode inputs (target_at mode inputs x).spot }
    {
        self.in_data && self.address <= self.bounds.data_end
    }

    /// S in the segment of P, or at its end.
    fn is_in_one_segment(&self) -> bool
        ensures { (mode : Mode) (inputs : List RelObject) (x : InputRel) → AreFacts mode inputs x self.now
            → result ≡ spec.is_in_one_segment mode inputs x }
    {
        if self.is_writable {
            self.is_within_data()
        } else {
            self.is_within_text()
        }
    }

    fn is_far_branch(&self) -> bool
        requires { AreNear self.now }
        ensures { (mode : Mode) (inputs : List RelObject) (x : InputRel) → AreFacts mode inputs x self.now
            → result ≡ spec.is_far_branch mode inputs x (target_at mode inputs x) }
    {
        is_branch(self.kind) && !is_nothing(self.target.reach) && !self.can_branch()
    }

    fn is_far_address(&self) -> bool
        requires { AreNear self.now }
        ensures { (mode : Mode) (inputs : List RelObject) (x : InputRel) → AreFacts mode inputs x self.now
            → result ≡ spec.is_far_address mode inputs x (target_at mode inputs x) }
    {
        is_address_kind(self.kind)
            && is_settled(self.target.reach)
            && !is_absolute(self.target.spot)
            && !self.stays_in_segment()
    }

    fn is_far_distance(&self) -> bool
        ensures { (mode : Mode) (inputs : List RelObject) (x : InputRel) → AreFacts mode inputs x self.now
            → result ≡ spec.is_far_distance mode inputs x (target_at mode inputs x) }
    {
        self.kind == R_ARM_REL32 && is_settled(self.target.reach) && !self.is_in_one_segment()
    }

    fn is_far_offset(&self) -> bool
        ensures { (mode : Mode) (inputs : List RelObject) (x : InputRel) → AreFacts mode inputs x self.now
            → result ≡ spec.is_far_offset mode inputs x (target_at mode inputs x) }
    {
        self.kind == R_ARM_GOTOFF32 && is_settled(self.target.reach) && !self.is_within_data()
    }

    /// Any of these.
    #[tactic(auto, unfolding(link_model::specs::SiteTests::is_cross))]
    pub(crate) fn is_cross(&self) -> bool
        requires { AreNear self.now }
        ensures { (mode : Mode) (inputs : List RelObject) (x : InputRel) → AreFacts mode inputs x self.now
            → result ≡ spec.is_cross mode inputs x }
    {
        self.leads_to_number()
            || self.is_far_branch()
            || self.is_far_address()
            || self.is_far_distance()
            || self.is_far_offset()
    }
}
