//! What is left to the loader of the GOT.

ghost use Rattle.std.specs.Prelude.{◌≡◌, ◌<◌, ◌^◌, ◌++◌, flat_map, option_to_list, Contains, IfOk, OnOk};
ghost use Rattle.elf_model.specs.declared.constants.TheConstants.{R_ARM_FUNCDESC_VALUE};
ghost use Rattle.link_model.specs.declared.need.Need.TheVariants.{Slot};
ghost use Rattle.link_model.specs.DynamicRels as spec;
ghost use Rattle.link_model.specs.DynamicSymbols.{shown_targets, symbol_index};
ghost use Rattle.link_model.specs.Needs.{all_needs};
ghost use Rattle.link_model.specs.Places.{data_end, need_place};
ghost use Rattle.link_words.specs.parts.Needs.{rels_in};
ghost use Rattle.link_got.specs.parts.Keyed.{joining_of};

use elf_model::constants::R_ARM_FUNCDESC_VALUE;
use elf_model::{Rel, Rels};
use fd_base::{Memory, Seq};
use link_checks::Shown;
use link_model::{Key, Need};
use link_names::Joined;
use link_places::Layout;
use link_words::{DescriptorRels, descriptor_rels, func_word_rel, word_rel};
use std::alloc::Global;

/// Puts a relocation behind others, if there is one.
pub fn put_rel(rels: &mut Rels, rel: Option<Rel>) -> Result<(), Memory>
    ensures { OnOk result (rels.new ≡ rels.old ++ option_to_list rel) }
{
    match rel {
        Some(rel) => rels.push(rel),
        None => Ok(()),
    }
}

/// Puts what is left to the loader of a descriptor behind others.
fn put_descriptor(rels: &mut Rels, descriptor: DescriptorRels) -> Result<(), Memory>
    ensures { OnOk result (rels.new ≡ rels.old ++ rels_in descriptor) }
{
    match descriptor {
        DescriptorRels::Filled(rel) => rels.push(rel),
        DescriptorRels::Moved(first, second) => {
            rels.push(first)?;
            rels.push(second)
        }
    }
}

/// Puts what is left to the loader of a need behind others.
fn put_need(
    rels: &mut Rels,
    joined: &Joined,
    layout: &Layout,
    shown: &Shown,
    need: Need,
) -> Result<(), Memory>
    requires one { joined.now ≡ joining_of layout.now }
    requires shown { shown.now ≡ shown_targets joined.now.mode joined.now.inputs }
    requires small { data_end layout.now.mode layout.now.text.inputs.now < 2 ^ 32 }
    requires there { Contains (all_needs joined.now.mode joined.now.inputs) need }
    ensures { OnOk result (rels.new ≡ rels.old ++ spec.need_rels joined.now.mode joined.now.inputs need) }
{
    let place = layout.need_place(need) as u32;
    match need {
        Need::Word(key) => {
            let target = joined.target_of_key(key);
            put_rel(rels, word_rel(place, &target, shown.index(target.key)))
        }
        Need::FuncWord(key) => {
            let target = joined.target_of_key(key);
            put_rel(rels, func_word_rel(place, &target, shown.index(target.key)))
        }
        Need::Descriptor(_) => put_descriptor(rels, descriptor_rels(layout.mode, place)),
        Need::NoFunction(_) | Need::Slot(_) => Ok(()),
    }
}

/// What is left to the loader of the words and descriptors of the GOT, by first use.
pub fn need_rels(
    alloc: Global,
    joined: &Joined,
    layout: &Layout,
    shown: &Shown,
) -> Result<Rels, Memory>
    requires one { joined.now ≡ joining_of layout.now }
    requires shown { shown.now ≡ shown_targets joined.now.mode joined.now.inputs }
    requires small { data_end layout.now.mode layout.now.text.inputs.now < 2 ^ 32 }
    ensures { IfOk result (λ rels. rels ≡ flat_map (spec.need_rels joined.now.mode joined.now.inputs) (all_needs joined.now.mode joined.now.inputs)) }
{
    let mut rels = Seq::new(alloc);
    for need in layout.needs.list() {
        put_need(&mut rels, joined, layout, shown, *need)?;
    }
    Ok(rels)
}

/// The relocation of a symbol's slot.
fn slot_rel(layout: &Layout, shown: &Shown, key: Key) -> Rel
    requires shown { shown.now ≡ shown_targets layout.now.mode layout.now.text.inputs.now }
    requires small { data_end layout.now.mode layout.now.text.inputs.now < 2 ^ 32 }
    ensures { result ≡ record {
      site = need_place layout.now.mode layout.now.text.inputs.now (Slot key);
      kind = R_ARM_FUNCDESC_VALUE;
      symbol = symbol_index layout.now.mode layout.now.text.inputs.now key;
    } }
{
    Rel {
        site: layout.need_place(Need::Slot(key)) as u32,
        kind: R_ARM_FUNCDESC_VALUE,
        symbol: shown.index(key),
    }
}

/// The relocations of all slots, by number of the slot.
pub fn slot_rels(alloc: Global, layout: &Layout, shown: &Shown) -> Result<Rels, Memory>
    requires shown { shown.now ≡ shown_targets layout.now.mode layout.now.text.inputs.now }
    requires small { data_end layout.now.mode layout.now.text.inputs.now < 2 ^ 32 }
    ensures { IfOk result (λ rels. rels ≡ spec.jmprels_for layout.now.mode layout.now.text.inputs.now) }
{
    let mut rels = Seq::new(alloc);
    for key in layout.slot_keys() {
        rels.push(slot_rel(layout, shown, *key))?;
    }
    Ok(rels)
}
