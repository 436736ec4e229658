//! Which names of a text have symbols, and the symbols' numbers.

ghost use Rattle.std.specs.Prelude.{◌≡◌, ℕ, ◌+◌, ◌-◌, ◌^◌, ◌<◌, ◌≤◌, ◌==◌, ◌++◌, ◌&&◌, ◌||◌, is_some, is_none, false, length, map, filter, get_or, All, IfOk, OnOk, bytes_eq};
ghost use Rattle.std.specs.List.{IsDistinct, position_or_len};
ghost use Rattle.a32_asm.specs.Shown.{shown_rel};
ghost use Rattle.a32_asm.specs.Object as spec;
ghost use Rattle.a32_asm.specs.parts.Numbered.{AreMarked, AreNamed, AreNumbers};

use crate::contents::{Contents, RelTo};
use crate::known::Known;
use crate::layout::Made;
use fd_base::Memory;
use std::alloc::Global;
use std::marker::Model;

/// Marks the names of relocations.
fn mark(known: &Known, rels: &[RelTo], named: &mut [bool])
    requires different { IsDistinct bytes_eq known.now.names }
    requires each { length named.old ≡ length known.now.names }
    ensures { AreMarked known.now.names (map shown_rel rels.now) named.old named.new }
{
    for rel in rels {
        let place = known.place_of(rel.name);
        if place < named.len() {
            named[place] = true;
        }
    }
}

/// Whether a relocation names the name of each place.
pub(crate) fn named_places(
    alloc: Global,
    known: &Known,
    contents: &Contents,
) -> Result<Vec<bool>, Memory>
    requires { IsDistinct bytes_eq known.now.names }
    ensures { IfOk result (λ named. AreNamed known.now.names contents.now.rels named.items) }
{
    let mut named = vec![in alloc; false; known.len()]?;
    for rels in &contents.rels {
        mark(known, rels.as_slice(), &mut named);
    }
    Ok(named)
}

/// Whether a place is marked.
fn is_marked(named: &[bool], place: usize) -> bool
    ensures { result ≡ get_or named.now place false }
{
    match named.get(place) {
        Some(flag) => *flag,
        None => false,
    }
}

/// Puts the places of the labels that are neither global nor weak and that are marked.
fn add_locals(all: &Made, named: &[bool], places: &mut Vec<usize>) -> Result<(), Memory>
    ensures { OnOk result (places.new.items ≡ places.old.items ++ filter (λ k. is_none (spec.facts_at all.now k).weak && get_or named.now k false) all.now.labels) }
{
    let known = all.known();
    for place in all.labels() {
        if known.facts_at(*place).weak.is_none() && is_marked(named, *place) {
            places.push(*place)?;
        }
    }
    Ok(())
}

/// Whether the name of a place is global, weak or not defined.
fn is_other(all: &Made, place: usize) -> bool
    ensures { result ≡ (is_some (spec.facts_at all.now place).weak || is_none (spec.facts_at all.now place).label) }
{
    let facts = all.known().facts_at(place);
    facts.weak.is_some() || facts.label.is_none()
}

/// Puts the places of the names that are global, weak or not defined.
#[tactic(auto, unfolding(crate::specs::Object::others))]
fn add_others(all: &Made, places: &mut Vec<usize>) -> Result<(), Memory>
    ensures { OnOk result (places.new.items ≡ places.old.items ++ spec.others all.now) }
{
    for place in 0..all.known().len() {
        if is_other(all, place) {
            places.push(place)?;
        }
    }
    Ok(())
}

/// The number of each place among these, and the next number for one that isn't there. The first has number 1.
fn numbers_of(alloc: Global, count: usize, places: &[usize]) -> Result<Vec<u32>, Memory>
    requires { length places.now < 2 ^ 32 - 1 }
    ensures each { IfOk result (λ numbers. length numbers.items ≡ count) }
    ensures value { IfOk result (λ numbers. AreNumbers 1 places.now numbers.items) }
{
    let mut numbers = vec![in alloc; places.len() as u32 + 1; count]?;
    let mut i = places.len();
    while i > 0 {
        i -= 1;
        let place = places[i];
        if place < count {
            numbers[place] = i as u32 + 1;
        }
    }
    Ok(numbers)
}

/// The names that have symbols, as places in the names, with the number of each.
#[derive(Drop)]
pub(crate) struct Numbered {
    places: Vec<usize>,
    numbers: Vec<u32>,
}

impl Model for Numbered {
    ghost use Rattle.std.specs.Prelude.{ℕ, ◌+◌, ◌-◌, ◌^◌, ◌<◌, List, length, All};
    ghost use Rattle.a32_asm.specs.parts.Numbered.{AreNumbers};

    ghost Value = { List ℕ };

    ghost view = { λ s. s.places.items };

    ghost invariant = { λ s. (length s.places.items < 2 ^ 32 - 1) × (All (λ k. k < length s.numbers.items) s.places.items) × AreNumbers 1 s.places.items s.numbers.items };
}

impl Numbered {
    /// Those of a text, by which names its relocations name.
    pub(crate) fn of(alloc: Global, all: &Made, named: &[bool]) -> Result<Numbered, Memory>
        requires below { All (λ k. k < length all.now.known.names) all.now.labels }
        requires few { length (filter (λ k. is_none (spec.facts_at all.now k).weak && get_or named.now k false) all.now.labels ++ spec.others all.now) < 2 ^ 32 - 1 }
        ensures { IfOk result (λ n. n ≡ filter (λ k. is_none (spec.facts_at all.now k).weak && get_or named.now k false) all.now.labels ++ spec.others all.now) }
    {
        let mut places = Vec::new(alloc);
        add_locals(all, named, &mut places)?;
        add_others(all, &mut places)?;
        let numbers = numbers_of(alloc, all.known().len(), places.as_slice())?;
        Ok(Numbered { places, numbers })
    }

    /// The places in the order of the symbols.
    pub(crate) fn places(&self) -> &[usize]
        ensures { result.now ≡ self.now }
    {
        self.places.as_slice()
    }

    /// The number of the symbol of a place. The null symbol has number 0.
    pub(crate) fn number_of(&self, place: usize) -> u32
        ensures { result ≡ 1 + position_or_len (λ k. k == place) self.now }
    {
        match self.numbers.get(place) {
            Some(number) => *number,
            None => self.places.len() as u32 + 1,
        }
    }
}
