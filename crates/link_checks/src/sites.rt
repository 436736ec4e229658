//! The tests of all relocations.

ghost use Rattle.std.specs.Prelude.{◌≡◌, ◌<◌, ◌++◌, List, All, Contains, length};
ghost use Rattle.std.specs.List.{flat_map};
ghost use Rattle.link_model.specs.Inputs as spec;
ghost use Rattle.link_model.specs.SiteTests.{meets_earlier, site_tests};
ghost use Rattle.link_model.specs.parts.Passes.{Gives};
ghost use Rattle.link_words.specs.parts.Facts.{AreFacts, AreNear};
ghost use Rattle.link_checks.specs.parts.Found.{AreFound};
ghost use Rattle.link_checks.specs.parts.Sited.{IsInside, IsRel, IsSection};

use crate::covered::Covered;
use crate::linking::Linking;
use elf_model::{Rel, RelSection};
use fd_base::Seq;
use link_model::{LinkErr, Site};
use link_places::{SectionHead, section_of};
use link_words::{Facts, check_site};
use std::alloc::Global;

impl<'a> Linking<'a> {
    /// Tests a relocation of a section, and gives what was looked up of it.
    fn check_rel(
        &self,
        head: &SectionHead,
        section: &RelSection,
        rel: &Rel,
        meets: bool,
    ) -> Result<Facts, LinkErr>
        requires { IsInside section.now rel.now }
        ensures { (x : spec.InputRel) → IsRel x head.now section.now rel.now → meets ≡ meets_earlier x
            → Gives result (site_tests self.now.joined.mode self.now.joined.inputs x) (λ facts. AreFacts self.now.joined.mode self.now.joined.inputs x facts × AreNear facts) }
    {
        let facts = self.facts(head, section, rel, meets);
        let site = Site {
            input: head.input,
            section: head.number,
            offset: rel.site,
        };
        check_site(site, &facts)?;
        Ok(facts)
    }

    /// Tests the relocations of a section, and puts what was looked up of each behind that of others.
    fn check_section(
        &self,
        alloc: Global,
        head: &SectionHead,
        section: &RelSection,
        found: &mut Seq<Facts>,
    ) -> Result<(), LinkErr>
        requires { All (IsInside section.now) section.now.rels }
        ensures { (x : spec.InputSection) (others : List spec.InputRel) → IsSection x head.now section.now
            → AreFound self.now.joined.mode self.now.joined.inputs others found.old
            → Gives result (flat_map (site_tests self.now.joined.mode self.now.joined.inputs) (spec.rels_in x)) (λ _. AreFound self.now.joined.mode self.now.joined.inputs (others ++ spec.rels_in x) found.new) }
    {
        if section.rels.is_empty() {
            return Ok(());
        }
        let mut covered = Covered::new(alloc, section.filled.len())?;
        for rel in section.rels.as_slice() {
            let facts = self.check_rel(head, section, rel, covered.meets(rel))?;
            found.push(facts)?;
            covered.put(rel);
        }
        Ok(())
    }
}

/// Tests all relocations, in order, and gives what was looked up of each. Refuses by `ThumbBranch`, `RelocType` and
/// `CrossSegment`, by the first test that fails.
pub fn check_sites(alloc: Global, linking: &Linking) -> Result<Seq<Facts>, LinkErr>
    ensures { Gives result (flat_map (site_tests linking.now.joined.mode linking.now.joined.inputs) (spec.all_rels linking.now.joined.inputs))
        (λ found. AreFound linking.now.joined.mode linking.now.joined.inputs (spec.all_rels linking.now.joined.inputs) found) }
{
    let mut found = Seq::new(alloc);
    for head in linking.layout.text.heads() {
        let section = section_of(linking.joined.inputs(), head);
        linking.check_section(alloc, head, section, &mut found)?;
    }
    Ok(found)
}
