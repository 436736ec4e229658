//! Where names of the text lead, once all its labels are known.

ghost use Rattle.std.specs.Prelude.{◌≡◌, ◌<◌, ◌≤◌, ◌%◌, ◌^◌, IfSome};
ghost use Rattle.a32_asm.specs.declared.limits.TheConstants.{SECTION_MAX};
ghost use Rattle.a32_asm.specs.SecondPass as spec;
ghost use Rattle.a32_asm.specs.parts.Fits.{AreInside};

use crate::known::Known;
use crate::said::Place;

/// The offset of a label, where it stands in this section.
pub(crate) fn label_here(section: u8, label: Option<Place>) -> Option<u32>
    ensures value { result ≡ spec.label_here section label }
    ensures same { IfSome result (λ to. IfSome label (λ place. to ≡ place.offset)) }
{
    match label {
        Some(place) if place.section == section => Some(place.offset),
        _ => None,
    }
}

/// The offset of a label of this section that is neither global nor weak.
#[tactic(auto, unfolding(crate::specs::SecondPass::settled))]
pub(crate) fn settled(known: &Known, section: u8, name: &[u8]) -> Option<u32>
    requires there { AreInside known.now }
    ensures value { result ≡ spec.settled known.now section name.now }
    ensures within { IfSome result (λ to. to ≤ SECTION_MAX) }
{
    let facts = known.facts_of(name);
    if facts.weak.is_none() {
        label_here(section, facts.label)
    } else {
        None
    }
}

/// The field of a branch from an offset to another.
#[tactic(auto, unfolding(crate::specs::SecondPass::field_to))]
pub(crate) fn field_to(from: u32, to: u32) -> u32
    requires here { from ≤ SECTION_MAX }
    requires there { to ≤ SECTION_MAX }
    ensures value { result ≡ spec.field_to from to }
    ensures below { from % 4 ≡ 0 → to % 4 ≡ 0 → result < 2 ^ 24 }
{
    if from + 8 <= to {
        (to - (from + 8)) / 4
    } else {
        (1 << 24) - (from + 8 - to) / 4
    }
}
