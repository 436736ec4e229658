//! What the relocations of all inputs want to have in the GOT.

ghost use Rattle.std.specs.Prelude.{◌≡◌, ◌<◌, Some, true, not, length, slice_get, unwrap_or, OnOk};
ghost use Rattle.elf_model.specs.Symbols.{null_symbol};
ghost use Rattle.symbol_scope.specs.Closure.{with_new};
ghost use Rattle.link_model.specs.Needs as spec;
ghost use Rattle.link_model.specs.parts.Passes.{Gives};
ghost use Rattle.link_places.specs.parts.Gathering.{rel_needs, section_needs, input_needs};
ghost use Rattle.link_places.specs.parts.NeedTable.{needs_in, needs_of};

use crate::heads::number;
use crate::needs::{NeedSet, NeedTable};
use crate::text::TextPlaces;
use crate::wants::add_wanted;
use elf_model::{Place, Rel, RelObject, RelSection, Symbol};
use fd_base::Memory;
use link_model::LinkErr;
use link_names::{Joined, is_joined};
use std::alloc::Global;

/// Whether a place is in a section that isn't kept.
pub fn is_dropped(place: Place) -> bool
    ensures { result ≡ spec.is_dropped place }
{
    matches!(place, Place::Dropped)
}

/// Whether a symbol is joined with no other, and nowhere defined.
pub fn is_own_undefined(symbol: &Symbol) -> bool
    ensures { result ≡ spec.is_own_undefined symbol.now }
{
    !is_joined(symbol) && matches!(symbol.place, Place::Undefined | Place::Common)
}

/// Whether something can be made of the symbol of this number, which is one of the file then.
fn is_usable(object: &RelObject, number: u32) -> bool
    ensures usable { result ≡ not (spec.is_unusable (unwrap_or (slice_get object.now.symbols number) null_symbol)) }
    ensures there { result ≡ true → number < length object.now.symbols }
{
    match object.symbols.as_slice().get(number as usize) {
        Some(symbol) => !is_dropped(symbol.place) && !is_own_undefined(symbol),
        None => false,
    }
}

/// Adds what a relocation of an input wants.
fn add_rel(
    needs: &mut NeedSet,
    joined: &Joined,
    text: &TextPlaces,
    input: u32,
    object: &RelObject,
    rel: &Rel,
) -> Result<(), Memory>
    requires input { slice_get joined.now.inputs input ≡ Some object.now }
    requires inputs { joined.now.inputs ≡ text.now.inputs.now }
    ensures { OnOk result (needs_in needs.new ≡ with_new spec.is_same_need (needs_in needs.old) (rel_needs joined.now.mode joined.now.inputs input rel.now)) }
{
    if !is_usable(object, rel.symbol) {
        return Ok(());
    }
    let target = joined.target(input, rel.symbol);
    add_wanted(needs, text, rel.kind, &target)
}

/// Adds what the relocations of a section want.
fn add_section(
    needs: &mut NeedSet,
    joined: &Joined,
    text: &TextPlaces,
    input: u32,
    object: &RelObject,
    section: &RelSection,
) -> Result<(), Memory>
    requires input { slice_get joined.now.inputs input ≡ Some object.now }
    requires inputs { joined.now.inputs ≡ text.now.inputs.now }
    ensures { OnOk result (needs_in needs.new ≡ with_new spec.is_same_need (needs_in needs.old) (section_needs joined.now.mode joined.now.inputs input section.now)) }
{
    for rel in section.rels.as_slice() {
        add_rel(needs, joined, text, input, object, rel)?;
    }
    Ok(())
}

/// Adds what the relocations of an input want.
fn add_input(
    needs: &mut NeedSet,
    joined: &Joined,
    text: &TextPlaces,
    input: u32,
    object: &RelObject,
) -> Result<(), Memory>
    requires input { slice_get joined.now.inputs input ≡ Some object.now }
    requires inputs { joined.now.inputs ≡ text.now.inputs.now }
    ensures { OnOk result (needs_in needs.new ≡ with_new spec.is_same_need (needs_in needs.old) (input_needs joined.now.mode joined.now.inputs (input, object.now))) }
{
    for section in object.sections.as_slice() {
        add_section(needs, joined, text, input, object, section)?;
    }
    Ok(())
}

/// What the relocations of all inputs want to have in the GOT, by first use. Refuses by `TooLarge` where that is too
/// much.
pub fn gather_needs(alloc: Global, joined: &Joined, text: &TextPlaces) -> Result<NeedTable, LinkErr>
    requires inputs { joined.now.inputs ≡ text.now.inputs.now }
    ensures { Gives result (spec.need_tests joined.now.mode joined.now.inputs) (λ table. needs_of table ≡ spec.all_needs joined.now.mode joined.now.inputs) }
{
    let mut needs = NeedSet::new(alloc);
    for (i, object) in joined.inputs().iter().enumerate() {
        let input = number(i)?;
        add_input(&mut needs, joined, text, input, object)?;
    }
    NeedTable::new(alloc, needs)
}
