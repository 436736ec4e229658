//! Sites, none of which meets an earlier one or the header of the GOT.

ghost use Rattle.std.specs.Prelude.{◌≡◌, ◌<◌, ◌^◌, ◌+◌, ◌||◌, ◌++◌, [], ◌∷◌, ℕ, List, OnOk, All, true};
ghost use Rattle.std.specs.List.{list_any};
ghost use Rattle.std.specs.BTreeSet as set;
ghost use Rattle.std.specs.Ordering.{nat_cmp};
ghost use Rattle.elf_model.specs.declared.table.Site.{Site};
ghost use Rattle.elf_model.specs.Relocations as spec;
ghost use Rattle.elf_read.specs.parts.Passes.{Passes};

use crate::error::ReadErr;
use crate::held::is_writable_at;
use crate::refusals::refuse;
use elf_model::{ElfKind, ProgramHeader, Site};
use fd_base::Memory;
use std::alloc::Global;
use std::collections::BTreeSet;

/// At a multiple of 4, in the memory of one writable segment.
#[tactic(auto, unfolding(elf_model::specs::Relocations::is_in_place))]
pub fn is_in_place(loads: &[ProgramHeader], site: &Site) -> bool
    ensures { result ≡ spec.is_in_place loads.now site.now }
{
    site.addr % 4 == 0 && is_writable_at(loads, site.addr, site.size)
}

/// The words that sites fill so far.
#[derive(Drop)]
pub struct Taken {
    words: BTreeSet<u32>,
}

impl Taken {
    ghost use Rattle.elf_read.specs.parts.Taken.{covers, IsWhole, IsAligned, Has};

    /// No words.
    pub fn new(alloc: Global) -> Self
        ensures { Has result [] }
    {
        Taken {
            words: BTreeSet::new(alloc),
        }
    }

    /// Whether a site has a word that is taken.
    fn meets(&self, site: &Site) -> bool
        requires aligned { IsAligned site.now }
        requires fits { site.now.addr + site.now.size < 2 ^ 32 }
        ensures { (sites : List Site) → Has self.now sites
            → result ≡ list_any (λ s. spec.meets site.now s) sites }
    {
        for k in 0..site.size / 4 {
            if self.words.contains(&(site.addr + 4 * k)) {
                return true;
            }
        }
        false
    }

    fn take_words(&mut self, site: &Site) -> Result<(), Memory>
        requires aligned { IsAligned site.now }
        requires fits { site.now.addr + site.now.size < 2 ^ 32 }
        ensures { OnOk result ((w : ℕ) → set.contains nat_cmp self.new.words w
            ≡ (covers site.now w || set.contains nat_cmp self.old.words w)) }
    {
        for k in 0..site.size / 4 {
            self.words.insert(site.addr + 4 * k)?;
        }
        Ok(())
    }

    /// Takes the words of a site that is in its place.
    pub fn take(&mut self, loads: &[ProgramHeader], site: &Site) -> Result<(), Memory>
        requires below { All (λ h. h.vaddr + h.memsz < 2 ^ 32) loads.now }
        requires whole { IsWhole site.now }
        requires in_place { spec.is_in_place loads.now site.now ≡ true }
        ensures { OnOk result ((sites : List Site) → Has self.old sites
            → Has self.new (sites ++ site.now ∷ [])) }
    {
        self.take_words(site)
    }

    #[tactic(auto, unfolding(elf_model::specs::Relocations::site_tests))]
    fn check(&self, loads: &[ProgramHeader], site: &Site, offset: u32) -> Result<(), ReadErr>
        requires below { All (λ h. h.vaddr + h.memsz < 2 ^ 32) loads.now }
        requires whole { IsWhole site.now }
        ensures tests { (sites : List Site) → Has self.now sites
            → Passes result (spec.site_tests loads.now sites offset site.now) }
        ensures in_place { OnOk result (spec.is_in_place loads.now site.now ≡ true) }
    {
        refuse(!is_in_place(loads, site), ElfKind::SiteRange, offset)?;
        refuse(self.meets(site), ElfKind::SiteOverlap, offset)
    }

    /// The tests of a site that is named at an offset of the file. Its words are taken where it passes them.
    pub fn fill(&mut self, loads: &[ProgramHeader], site: &Site, offset: u32) -> Result<(), ReadErr>
        requires below { All (λ h. h.vaddr + h.memsz < 2 ^ 32) loads.now }
        requires whole { IsWhole site.now }
        ensures tests { (sites : List Site) → Has self.old sites
            → Passes result (spec.site_tests loads.now sites offset site.now) }
        ensures taken { OnOk result ((sites : List Site) → Has self.old sites
            → Has self.new (sites ++ site.now ∷ [])) }
    {
        self.check(loads, site, offset)?;
        self.take(loads, site)?;
        Ok(())
    }
}
