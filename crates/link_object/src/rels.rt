//! The relocations that the loader is to fill.

ghost use Rattle.std.specs.Prelude.{◌≡◌, ◌++◌, ◌^◌, ◌<◌, All, List, map, IfOk, OnOk};
ghost use Rattle.std.specs.List.{AllZip, flat_map};
ghost use Rattle.elf_model.specs.declared.relocatable.RelObject.{RelObject};
ghost use Rattle.link_model.specs.declared.input.Mode.{Mode};
ghost use Rattle.link_model.specs.DynamicRels as spec;
ghost use Rattle.link_model.specs.DynamicSymbols.{shown_targets};
ghost use Rattle.link_model.specs.Inputs.{InputRel, all_rels};
ghost use Rattle.link_model.specs.Places.{data_end};
ghost use Rattle.link_model.specs.Sites.{site_rels};
ghost use Rattle.link_got.specs.parts.Keyed.{joining_of};
ghost use Rattle.link_words.specs.parts.Facts.{AreFacts, AreLow};

use elf_model::{Rel, Rels};
use fd_base::{Memory, Seq, Words};
use link_checks::Shown;
use link_got::{need_rels, put_rel};
use link_model::Mode;
use link_names::Joined;
use link_places::Layout;
use link_words::{Facts, rel_at};
use std::alloc::Global;

/// Puts what is left to the loader at relocations of the inputs behind others, in the order of the facts.
fn put_site_rels(rels: &mut Rels, facts: &[Facts]) -> Result<(), Memory>
    requires { All AreLow facts.now }
    ensures { (mode : Mode) (inputs : List RelObject) (xs : List InputRel) → AllZip (AreFacts mode inputs) xs facts.now
        → OnOk result (rels.new ≡ rels.old ++ flat_map (site_rels mode inputs) xs) }
{
    for one in facts {
        put_rel(rels, rel_at(one))?;
    }
    Ok(())
}

/// Sorts relocations by their sites; those of one site keep their order.
fn sort_by_site(rels: Rels) -> Result<Rels, Memory>
    ensures { IfOk result (λ sorted. sorted ≡ spec.by_site rels) }
{
    let mut rels = rels.into_vec();
    rels.sort_by_key(|rel| rel.site)?;
    Ok(Seq::from_vec(rels))
}

/// The relocations that the loader is to fill, but for those of slots, by rising site.
fn dynamic_rels(
    alloc: Global,
    joined: &Joined<'_>,
    layout: &Layout<'_>,
    shown: &Shown,
    facts: &[Facts],
) -> Result<Rels, Memory>
    requires one { joined.now ≡ joining_of layout.now }
    requires shown { shown.now ≡ shown_targets layout.now.mode layout.now.text.inputs.now }
    requires small { data_end layout.now.mode layout.now.text.inputs.now < 2 ^ 32 }
    requires low { All AreLow facts.now }
    requires found { AllZip (AreFacts layout.now.mode layout.now.text.inputs.now) (all_rels layout.now.text.inputs.now) facts.now }
    ensures { IfOk result (λ rels. rels ≡ spec.dynamic_rels layout.now.mode layout.now.text.inputs.now) }
{
    let mut rels = need_rels(alloc, joined, layout, shown)?;
    put_site_rels(&mut rels, facts)?;
    sort_by_site(rels)
}

/// The sites of relocations.
fn sites(alloc: Global, rels: &[Rel]) -> Result<Words, Memory>
    ensures { IfOk result (λ sites. sites ≡ map (λ r. r.site) rels.now) }
{
    let mut sites = Seq::new(alloc);
    for rel in rels {
        sites.push(rel.site)?;
    }
    Ok(sites)
}

/// The relocations that the loader is to fill, or the fixups of a program that stands alone.
#[derive(Drop)]
pub(crate) struct Relocated {
    pub(crate) rels: Rels,
    pub(crate) fixups: Option<Words>,
}

impl Relocated {
    /// By rising site, without the relocations of slots.
    pub(crate) fn new(
        alloc: Global,
        joined: &Joined<'_>,
        layout: &Layout<'_>,
        shown: &Shown,
        facts: &[Facts],
    ) -> Result<Relocated, Memory>
        requires one { joined.now ≡ joining_of layout.now }
        requires shown { shown.now ≡ shown_targets layout.now.mode layout.now.text.inputs.now }
        requires small { data_end layout.now.mode layout.now.text.inputs.now < 2 ^ 32 }
        requires low { All AreLow facts.now }
        requires found { AllZip (AreFacts layout.now.mode layout.now.text.inputs.now) (all_rels layout.now.text.inputs.now) facts.now }
        ensures rels { IfOk result (λ r. r.rels ≡ spec.rels_for layout.now.mode layout.now.text.inputs.now) }
        ensures fixups { IfOk result (λ r. r.fixups ≡ spec.fixups_for layout.now.mode layout.now.text.inputs.now) }
    {
        let rels = dynamic_rels(alloc, joined, layout, shown, facts)?;
        match layout.mode {
            Mode::Static => Ok(Relocated {
                rels: Seq::new(alloc),
                fixups: Some(sites(alloc, rels.as_slice())?),
            }),
            Mode::Program | Mode::Shared => Ok(Relocated { rels, fixups: None }),
        }
    }
}
