//! The relocatable object of a text.

ghost use Rattle.std.specs.Prelude.{◌≡◌, ◌<◌, ◌≤◌, ◌==◌, ◌||◌, ◌∷◌, nat_lt, length, map, get_or, position, All, IfOk};
ghost use Rattle.std.specs.Option.{option_map_or};
ghost use Rattle.std.specs.List.{list_any, position_or_len};
ghost use Rattle.elf_model.specs.RelSound.{IsNameText};
ghost use Rattle.elf_model.specs.Symbols as elf;
ghost use Rattle.a32_asm.specs.declared.section.TheConstants.{SECTIONS};
ghost use Rattle.a32_asm.specs.Shown.{shown_rel};
ghost use Rattle.a32_asm.specs.Object as spec;
ghost use Rattle.a32_asm.specs.parts.Made.{IsMade};

use crate::contents::{Contents, RelTo};
use crate::layout::Made;
use crate::said::{Facts, Place as Label};
use crate::section::{SECTIONS, section_flags, section_kind, section_name};
use crate::symbols::{Numbered, named_places};
use elf_model::constants::{STB_GLOBAL, STB_LOCAL, STB_WEAK, STT_NOTYPE, STV_DEFAULT};
use elf_model::{Place, Rel, RelObject, RelSection, RelSections, Rels, Symbol, Symbols};
use fd_base::{Bytes, Memory, Name};
use std::alloc::{AllocError, Global};

/// The name of bytes that can be one.
fn name_of(alloc: Global, bytes: &[u8]) -> Result<Name, Memory>
    requires { IsNameText bytes.now }
    ensures { IfOk result (λ name. name ≡ bytes.now) }
{
    match Name::new(alloc, bytes) {
        Ok(name) => Ok(name),
        Err(_) => Err(AllocError),
    }
}

/// Whether a label stands in a section.
fn has_label(section: u8, facts: &Facts) -> bool
    ensures { result ≡ spec.has_label section facts.now }
{
    match facts.label {
        Some(place) => place.section == section,
        None => false,
    }
}

/// Whether a label of these names stands in a section.
fn is_labelled(section: u8, names: &[Facts]) -> bool
    ensures { result ≡ list_any (spec.has_label section) names.now }
{
    names.iter().any(|facts| has_label(section, facts))
}

/// Whether a section has bytes or a label.
fn is_kept(all: &Made, section: u8) -> bool
    requires { section < SECTIONS }
    ensures { result ≡ (nat_lt 0 (get_or all.now.sizes section 0) || list_any (spec.has_label section) all.now.known.facts) }
{
    all.section_size(section) > 0 || is_labelled(section, all.known().facts())
}

/// The sections that the file has.
#[tactic(auto, unfolding(crate::specs::Object::kept))]
fn kept(alloc: Global, all: &Made) -> Result<Vec<u8>, Memory>
    ensures { IfOk result (λ kept. kept.items ≡ spec.kept all.now) }
{
    let mut kept = Vec::new(alloc);
    for section in 0..SECTIONS {
        if is_kept(all, section) {
            kept.push(section)?;
        }
    }
    Ok(kept)
}

/// The binding of a symbol.
fn binding_of(facts: &Facts) -> u8
    ensures { result ≡ spec.binding_of facts.now }
{
    match facts.weak {
        Some(true) => STB_WEAK,
        Some(false) => STB_GLOBAL,
        None if facts.label.is_some() => STB_LOCAL,
        None => STB_GLOBAL,
    }
}

/// The place of a section among those that the file has.
fn placed(kept: &[u8], section: u8) -> Option<usize>
    ensures { result ≡ position (λ k. k == section) kept.now }
{
    kept.iter().position(|k| *k == section)
}

/// The number of a section among those that the file has.
#[tactic(auto, using(crate::proofs::Lists::placed_there, crate::proofs::Lists::placed_nowhere))]
fn number_of(kept: &[u8], section: u8) -> u32
    requires { length kept.now ≤ 4 }
    ensures { result ≡ position_or_len (λ k. k == section) kept.now }
{
    match placed(kept, section) {
        Some(number) => number as u32,
        None => kept.len() as u32,
    }
}

/// Where a symbol is defined.
fn place_of(kept: &[u8], all: &Made, label: Option<Label>) -> Place
    requires kept { kept.now ≡ spec.kept all.now }
    requires few { length kept.now ≤ 4 }
    ensures { result ≡ spec.symbol_place all.now label }
{
    match label {
        Some(label) => Place::Section(number_of(kept, label.section)),
        None => Place::Undefined,
    }
}

/// The offset of a label, and 0 where there is none.
fn value_of(label: Option<Label>) -> u32
    ensures { result ≡ option_map_or (λ place. place.offset) label 0 }
{
    match label {
        Some(label) => label.offset,
        None => 0,
    }
}

/// The symbol of the name of a place.
fn symbol_of(alloc: Global, all: &Made, kept: &[u8], place: usize) -> Result<Symbol, Memory>
    requires made { IsMade all.now }
    requires kept { kept.now ≡ spec.kept all.now }
    requires few { length kept.now ≤ 4 }
    requires inside { place < length all.now.known.names }
    ensures { IfOk result (λ symbol. symbol ≡ spec.symbol_of all.now place) }
{
    let facts = all.known().facts_at(place);
    Ok(Symbol {
        name: Some(name_of(alloc, all.known().name_at(place))?),
        value: value_of(facts.label),
        size: 0,
        binding: binding_of(&facts),
        kind: facts.kind,
        visibility: facts.visibility,
        place: place_of(kept, all, facts.label),
    })
}

/// The null symbol.
fn null_symbol() -> Symbol
    ensures { result ≡ elf.null_symbol }
{
    Symbol {
        name: None,
        value: 0,
        size: 0,
        binding: STB_LOCAL,
        kind: STT_NOTYPE,
        visibility: STV_DEFAULT,
        place: Place::Undefined,
    }
}

/// The null symbol, and those of the names of places.
fn symbols_of(alloc: Global, all: &Made, kept: &[u8], places: &[usize]) -> Result<Symbols, Memory>
    requires made { IsMade all.now }
    requires kept { kept.now ≡ spec.kept all.now }
    requires few { length kept.now ≤ 4 }
    requires inside { All (λ place. place < length all.now.known.names) places.now }
    ensures { IfOk result (λ symbols. symbols ≡ elf.null_symbol ∷ map (spec.symbol_of all.now) places.now) }
{
    let mut symbols = Symbols::new(alloc);
    symbols.push(null_symbol())?;
    for place in places {
        symbols.push(symbol_of(alloc, all, kept, *place)?)?;
    }
    Ok(symbols)
}

/// Relocations by the numbers of their symbols.
fn rels_of(alloc: Global, all: &Made, numbered: &Numbered, rels: &[RelTo]) -> Result<Rels, Memory>
    ensures { IfOk result (λ made. made ≡ map (spec.rel_of all.now numbered.now) (map shown_rel rels.now)) }
{
    let mut made = Rels::new(alloc);
    for rel in rels {
        made.push(Rel {
            site: rel.site,
            kind: rel.kind,
            symbol: numbered.number_of(all.known().place_of(rel.name)),
        })?;
    }
    Ok(made)
}

/// A section of the file.
fn section_of(
    alloc: Global,
    all: &Made,
    contents: &Contents,
    numbered: &Numbered,
    section: u8,
) -> Result<RelSection, Memory>
    requires { section < SECTIONS }
    ensures { IfOk result (λ made. made ≡ spec.section_of all.now contents.now numbered.now section) }
{
    let i = section as usize;
    Ok(RelSection {
        name: Some(name_of(alloc, section_name(section).as_bytes())?),
        kind: section_kind(section),
        flags: section_flags(section),
        align: all.section_align(section),
        size: all.section_size(section),
        filled: Bytes::from_slice(alloc, contents.filled[i].as_slice())?,
        rels: rels_of(alloc, all, numbered, contents.rels[i].as_slice())?,
    })
}

/// The sections of the file.
fn sections_of(
    alloc: Global,
    all: &Made,
    contents: &Contents,
    numbered: &Numbered,
    kept: &[u8],
) -> Result<RelSections, Memory>
    requires { All (λ section. section < SECTIONS) kept.now }
    ensures { IfOk result (λ made. made ≡ map (spec.section_of all.now contents.now numbered.now) kept.now) }
{
    let mut made = RelSections::new(alloc);
    for section in kept {
        made.push(section_of(alloc, all, contents, numbered, *section)?)?;
    }
    Ok(made)
}

/// The relocatable object of a text, from what its lines have made and put.
#[tactic(auto, unfolding(crate::specs::Object::object_of, crate::specs::Object::locals))]
pub(crate) fn object_of(alloc: Global, all: &Made, contents: &Contents) -> Result<RelObject, Memory>
    requires { IsMade all.now }
    ensures { IfOk result (λ object. object ≡ spec.object_of all.now contents.now) }
{
    let named = named_places(alloc, all.known(), contents)?;
    let numbered = Numbered::of(alloc, all, named.as_slice())?;
    let kept = kept(alloc, all)?;
    Ok(RelObject {
        sections: sections_of(alloc, all, contents, &numbered, kept.as_slice())?,
        symbols: symbols_of(alloc, all, kept.as_slice(), numbered.places())?,
    })
}
