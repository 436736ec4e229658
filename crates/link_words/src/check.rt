//! The tests of one relocation, in their order.

ghost use Rattle.std.specs.Prelude.{◌≡◌, [], ◌∷◌, List};
ghost use Rattle.elf_model.specs.declared.relocatable.RelObject.{RelObject};
ghost use Rattle.link_model.specs.declared.input.Mode.{Mode};
ghost use Rattle.link_model.specs.Inputs.{InputRel};
ghost use Rattle.link_model.specs.SiteTests.{site_of, site_tests};
ghost use Rattle.link_model.specs.Targets.{refuses};
ghost use Rattle.link_model.specs.parts.Passes.{Passes};
ghost use Rattle.link_words.specs.parts.Facts.{AreFacts, AreNear};

use crate::facts::Facts;
use link_model::{LinkErr, LinkRefusal, Site};

fn refuse(fails: bool, refusal: LinkRefusal) -> Result<(), LinkErr>
    ensures { Passes result (refuses refusal fails ∷ []) }
{
    if fails {
        return Err(LinkErr::Refused(refusal));
    }
    Ok(())
}

/// Refuses a relocation by the first test that it fails.
#[tactic(auto, unfolding(link_model::specs::SiteTests::site_tests))]
pub fn check_site(site: Site, facts: &Facts) -> Result<(), LinkErr>
    requires { AreNear facts.now }
    ensures { (mode : Mode) (inputs : List RelObject) (x : InputRel) → site ≡ site_of x → AreFacts mode inputs x facts.now
        → Passes result (site_tests mode inputs x) }
{
    refuse(facts.is_thumb(), LinkRefusal::ThumbBranch(site))?;
    refuse(facts.is_wrong_type(), LinkRefusal::RelocType(site))?;
    refuse(facts.is_cross(), LinkRefusal::CrossSegment(site))
}
