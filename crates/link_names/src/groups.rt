//! Symbols by their names.

ghost use Rattle.std.specs.Prelude.{◌≡◌, ◌++◌, ◌∷◌, [], List, take, IfOk, OnOk, ◌<◌, ◌^◌, length, map, get_or, All};
ghost use Rattle.elf_model.specs.RelSound.{IsRelSound};
ghost use Rattle.elf_model.specs.declared.relocatable.RelObject.{RelObject};
ghost use Rattle.link_model.specs.Inputs.{InputSymbol};
ghost use Rattle.link_model.specs.Joined.{joined_of};
ghost use Rattle.link_names.specs.parts.Grouped.{groups_of, joined_among, joined_in};

use crate::mention::{Mention, is_joined};
use elf_model::RelObject;
use fd_base::{Memory, Seq};
use indexmap::IndexSet;
use std::alloc::Global;
use std::marker::Model;

/// Names by first appearance, and the symbols of each.
#[derive(Drop)]
pub(crate) struct Groups<'a> {
    names: IndexSet<&'a [u8]>,
    groups: Vec<Seq<Mention<'a>>>,
}

impl<'a> Model for Groups<'a> {
    ghost use Rattle.std.specs.Prelude.{map};
    ghost use Rattle.link_names.specs.parts.Grouped.{Groups};

    ghost Value = { Groups };

    ghost view = { λ s. record { names = map (λ n. n.now) s.names.keys; groups = s.groups.items } };
}

impl<'a> Groups<'a> {
    /// No symbols. Takes no memory.
    fn new(alloc: Global) -> Groups<'a>
        ensures { result ≡ groups_of [] }
    {
        Groups {
            names: IndexSet::new(alloc),
            groups: Vec::new(alloc),
        }
    }

    /// Puts a symbol to those of its name.
    fn put(&mut self, alloc: Global, x: Mention<'a>) -> Result<(), Memory>
        ensures { (xs : List InputSymbol) → self.old ≡ groups_of xs → OnOk result (self.new ≡ groups_of (xs ++ x.entry ∷ [])) }
    {
        let (place, added) = self.names.insert_full(x.name())?;
        if added {
            let mut group = Seq::new(alloc);
            group.push(x)?;
            self.groups.push(group)?;
        } else if place < self.groups.len() {
            self.groups[place].push(x)?;
        }
        Ok(())
    }
}

impl<'a> Groups<'a> {
    /// Puts a symbol to those of its name, where it is joined with others.
    fn put_symbol(&mut self, alloc: Global, x: Mention<'a>) -> Result<(), Memory>
        ensures { (xs : List InputSymbol) → self.old ≡ groups_of xs → OnOk result (self.new ≡ groups_of (xs ++ joined_among (x.entry ∷ []))) }
    {
        if !is_joined(x.symbol) {
            return Ok(());
        }
        self.put(alloc, x)
    }

    /// Puts all symbols of an input.
    fn put_symbols(
        &mut self,
        alloc: Global,
        input: u32,
        object: &'a RelObject,
    ) -> Result<(), Memory>
        requires { length object.now.symbols < 2 ^ 32 }
        ensures { (xs : List InputSymbol) → self.old ≡ groups_of xs → OnOk result (self.new ≡ groups_of (xs ++ joined_in (input, object.now))) }
    {
        for (number, symbol) in object.symbols.as_slice().iter().enumerate() {
            let number = number as u32;
            self.put_symbol(
                alloc,
                Mention {
                    input,
                    number,
                    symbol,
                },
            )?;
        }
        Ok(())
    }

    /// The joined symbols of all inputs by their names.
    pub(crate) fn of(alloc: Global, inputs: &'a [RelObject]) -> Result<Groups<'a>, Memory>
        requires few { length inputs.now < 2 ^ 32 }
        requires sound { All IsRelSound inputs.now }
        ensures { IfOk result (λ groups. groups ≡ groups_of (joined_of inputs.now)) }
    {
        let mut groups = Groups::new(alloc);
        for (input, object) in inputs.iter().enumerate() {
            groups.put_symbols(alloc, input as u32, object)?;
        }
        Ok(groups)
    }

    /// How many names there are.
    pub(crate) fn len(&self) -> usize
        ensures { result ≡ length self.now.names }
    {
        self.names.len()
    }

    /// The names, with their numbers.
    pub(crate) fn into_names(self) -> IndexSet<&'a [u8]>
        ensures { map (λ n. n.now) result.keys ≡ self.entry.names }
    {
        let Groups { names, groups: _ } = self;
        names
    }

    /// The name of a number, and no bytes behind the last.
    pub(crate) fn name_at(&self, k: usize) -> &'a [u8]
        ensures { result.now ≡ get_or self.now.names k [] }
    {
        match self.names.get_index(k) {
            Some(name) => *name,
            None => &[],
        }
    }

    /// The symbols of each name.
    pub(crate) fn groups(&self) -> &[Seq<Mention<'a>>]
        ensures { result.now ≡ self.now.groups }
    {
        self.groups.as_slice()
    }
}
