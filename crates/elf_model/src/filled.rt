//! The sites that loading fills in an object.

ghost use Rattle.std.specs.Prelude.{◌≡◌, ◌≤◌, ◌++◌, [], length, map, unwrap_or, IfOk, OnOk};
ghost use Rattle.elf_model.specs.declared.constants.TheConstants.{MAX_ENTRIES};
ghost use Rattle.elf_model.specs.Filled as spec;

use crate::constants::R_ARM_RELATIVE;
use crate::object::{Object, Rel, Rels};
use fd_base::{Memory, Seq, Words};
use std::alloc::Global;

/// A site that loading fills.
#[derive(Clone, Copy, PartialEq, Eq)]
pub struct FilledSite {
    /// Its relocation. That of a fixup is `R_ARM_RELATIVE` on symbol 0.
    pub rel: Rel,
    /// The number of its slot, from 0 in DT_JMPREL. Relocations of DT_REL and fixups have none.
    pub slot: Option<u32>,
}

/// Sites that loading fills, in order.
pub type FilledSites = Seq<FilledSite>;

/// A fixup as a relocation.
fn fixup_at(site: u32) -> Rel
    ensures { result ≡ spec.fixup_at site }
{
    Rel {
        site,
        kind: R_ARM_RELATIVE,
        symbol: 0,
    }
}

/// Puts the sites of fixups behind others.
fn push_fixups(sites: &mut Rels, fixups: &[u32]) -> Result<(), Memory>
    ensures { OnOk result (sites.new ≡ sites.old ++ map spec.fixup_at fixups.now) }
{
    for fixup in fixups {
        sites.push(fixup_at(*fixup))?;
    }
    Ok(())
}

/// Puts the sites of relocations that are no slots behind others.
fn push_plain(sites: &mut FilledSites, rels: &[Rel]) -> Result<(), Memory>
    ensures { OnOk result (sites.new ≡ sites.old ++ map spec.plain_site rels.now) }
{
    for rel in rels {
        sites.push(FilledSite {
            rel: *rel,
            slot: None,
        })?;
    }
    Ok(())
}

/// Puts the sites of slots behind others, counted from 0.
fn push_slots(sites: &mut FilledSites, slots: &[Rel]) -> Result<(), Memory>
    requires { length slots.now ≤ MAX_ENTRIES }
    ensures { OnOk result (sites.new ≡ sites.old ++ spec.slot_sites 0 slots.now) }
{
    for (k, rel) in slots.iter().enumerate() {
        sites.push(FilledSite {
            rel: *rel,
            slot: Some(k as u32),
        })?;
    }
    Ok(())
}

/// The sites of fixups, as relocations.
fn fixup_rels(alloc: Global, fixups: &Option<Words>) -> Result<Rels, Memory>
    ensures { IfOk result (λ rels. rels ≡ map spec.fixup_at (unwrap_or fixups.now [])) }
{
    let mut rels = Seq::new(alloc);
    if let Some(fixups) = fixups {
        push_fixups(&mut rels, fixups.as_slice())?;
    }
    Ok(rels)
}

impl Object {
    /// What loading fills but the header of the GOT, in three parts: DT_REL, the slots of DT_JMPREL with their numbers,
    /// and the fixups, each in table order.
    pub fn sites(&self, alloc: Global) -> Result<FilledSites, Memory>
        requires { length self.now.jmprels ≤ MAX_ENTRIES }
        ensures { IfOk result (λ sites. sites ≡ spec.sites_of self.entry.now) }
    {
        let mut sites = Seq::new(alloc);
        let fixups = fixup_rels(alloc, &self.fixups)?;
        push_plain(&mut sites, self.rels.as_slice())?;
        push_slots(&mut sites, self.jmprels.as_slice())?;
        push_plain(&mut sites, fixups.as_slice())?;
        Ok(sites)
    }

    /// What loading fills but the header of the GOT: DT_REL, DT_JMPREL and the fixups, each in table order.
    pub fn site_relocations(&self, alloc: Global) -> Result<Rels, Memory>
        ensures { IfOk result (λ sites. sites ≡ spec.site_relocations self.entry.now) }
    {
        let mut sites = Seq::from_slice(alloc, self.rels.as_slice())?;
        sites.extend_from_slice(self.jmprels.as_slice())?;
        if let Some(fixups) = &self.fixups {
            push_fixups(&mut sites, fixups.as_slice())?;
        }
        Ok(sites)
    }
}
