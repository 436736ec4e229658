//! Names by first appearance, and what lines said of each.

ghost use Rattle.std.specs.Prelude.{◌≡◌, [], length, get_or, OnOk};
ghost use Rattle.a32_asm.specs.Known as spec;

use crate::said::Facts;
use fd_base::Memory;
use indexmap::IndexSet;
use std::alloc::Global;
use std::marker::Model;

/// Names with what lines said of each.
#[derive(Drop)]
pub(crate) struct Known<'a> {
    names: IndexSet<&'a [u8]>,
    facts: Vec<Facts>,
}

impl<'a> Model for Known<'a> {
    ghost use Rattle.std.specs.Prelude.{map};
    ghost use Rattle.a32_asm.specs.Known.{Names};

    ghost Value = { Names };

    ghost view = { λ s. record { names = map (λ n. n.now) s.names.keys; facts = s.facts.items } };
}

/// Nothing is said.
fn no_facts() -> Facts
    ensures { result ≡ spec.no_facts }
{
    Facts {
        label: None,
        weak: None,
        visibility: 0,
        kind: 0,
    }
}

impl<'a> Known<'a> {
    /// No names. Takes no memory.
    pub(crate) fn new(alloc: Global) -> Known<'a>
        ensures { result ≡ record { names = []; facts = [] } }
    {
        Known {
            names: IndexSet::new(alloc),
            facts: Vec::new(alloc),
        }
    }

    /// How many names there are.
    pub(crate) fn len(&self) -> usize
        ensures { result ≡ length self.now.names }
    {
        self.names.len()
    }

    /// Adds a name, unless it is there.
    pub(crate) fn add(&mut self, name: &'a [u8]) -> Result<(), Memory>
        ensures { OnOk result (self.new ≡ spec.with_name name.now self.old) }
    {
        let (_, added) = self.names.insert_full(name)?;
        if added {
            self.facts.push(no_facts())?;
        }
        Ok(())
    }

    /// The place of a name, or that which it would get.
    pub(crate) fn place_of(&self, name: &[u8]) -> usize
        ensures { result ≡ spec.place_of name.now self.now.names }
    {
        match self.names.get_index_of(&name) {
            Some(place) => place,
            None => self.names.len(),
        }
    }

    /// The name of a place, and no bytes behind the last.
    pub(crate) fn name_at(&self, place: usize) -> &'a [u8]
        ensures { result.now ≡ get_or self.now.names place [] }
    {
        match self.names.get_index(place) {
            Some(name) => *name,
            None => &[],
        }
    }

    /// What lines said of the name of a place, and nothing behind the last.
    pub(crate) fn facts_at(&self, place: usize) -> Facts
        ensures { result ≡ get_or self.now.facts place spec.no_facts }
    {
        match self.facts.get(place) {
            Some(facts) => *facts,
            None => no_facts(),
        }
    }

    /// What lines said of each name.
    pub(crate) fn facts(&self) -> &[Facts]
        ensures { result.now ≡ self.now.facts }
    {
        self.facts.as_slice()
    }

    /// What lines said of a name, and nothing where none names it.
    pub(crate) fn facts_of(&self, name: &[u8]) -> Facts
        ensures { result ≡ spec.facts_of name.now self.now }
    {
        match self.facts.get(self.place_of(name)) {
            Some(facts) => *facts,
            None => no_facts(),
        }
    }

    /// Sets what is said of a name that is there.
    pub(crate) fn set(&mut self, name: &[u8], facts: Facts)
        ensures { self.new ≡ spec.with_facts name.now facts self.old }
    {
        let place = self.place_of(name);
        if place < self.facts.len() {
            self.facts[place] = facts;
        }
    }
}
