//! The tables of the modules of a process.

ghost use Rattle.std.specs.Prelude.{◌≡◌, None};
ghost use Rattle.symbol_scope.specs.Definition.{first_definition};
ghost use Rattle.symbol_scope.specs.parts.Needs.{export_in};

use crate::closing::closure_of;
use crate::slots::{export_in, make_room, put_slot, take_slot};
use crate::table::Table;
use elf_model::Object;
use fd_base::{Memory, Name, Numbers, Seq};
use std::alloc::Global;
use std::marker::Model;

/// The most modules that have tables. Their numbers are below it.
pub const MAX_MODULES: u32 = 64;

/// A definition.
#[derive(Clone, Copy, Debug, PartialEq, Eq)]
pub struct Found {
    /// The number of the module that has it.
    pub module: u32,
    /// The place of the symbol in the module's symbol table, counted from 0.
    pub symbol: u32,
}

/// The tables of modules, by their numbers. Contracts see them, and for how many numbers from 0 on a place is there, into
/// which a table can be put without memory.
#[derive(Drop)]
pub struct Tables {
    slots: Vec<Option<Table>>,
}

impl Model for Tables {
    ghost use Rattle.std.specs.Prelude.{◌≤◌, length};
    ghost use Rattle.symbol_scope.specs.parts.Slots.{TableSpace, table_space_code, filled_up};

    ghost Value = { TableSpace };

    ghost coded = { table_space_code };

    ghost view = { λ t. record { slots = filled_up t.slots.items; room = length t.slots.items } };

    ghost invariant = { λ t. length t.slots.items ≤ 64 };
}

impl Tables {
    ghost use Rattle.std.specs.Prelude.{◌≡◌, ◌↔◌, ◌≤◌, ◌<◌, ◌^◌, [], ◌∷◌, length, replicate, slice_set, Some, None, nat_eq, All, IfOk, OnOk, OnErr, IsNone};
    ghost use Rattle.symbol_scope.specs.Closure.{IsClosure};
    ghost use Rattle.symbol_scope.specs.Definition.{first_definition};
    ghost use Rattle.symbol_scope.specs.parts.Needs.{export_in, needs, table_at};
    ghost use Rattle.symbol_scope.specs.Table.{table_of};

    /// No module has a table. Takes no memory.
    pub fn new(alloc: Global) -> Tables
        ensures { result ≡ record { slots = replicate 64 None; room = 0 } }
    {
        Tables {
            slots: Vec::new(alloc),
        }
    }

    /// Gives the module of this number the table of an object, under the module's name. Without memory the tables stay.
    pub fn add(&mut self, number: u32, name: &Name, o: &Object) -> Result<(), Memory>
        requires number { number < MAX_MODULES }
        requires few { length o.now.symbols ≤ 2 ^ 32 }
        ensures added { OnOk result (self.new.slots ≡ slice_set self.old.slots number (Some (table_of name.now o.entry.now))) }
        ensures room { OnOk result (number < self.new.room) }
        ensures grows { self.old.room ≤ self.new.room }
        ensures stays { OnErr result (self.new.slots ≡ self.old.slots) }
    {
        let table = Table::of(*self.slots.allocator(), name, o)?;
        make_room(&mut self.slots, number as usize + 1)?;
        put_slot(&mut self.slots, number as usize, Some(table));
        Ok(())
    }

    /// Takes the table of a module out, and answers it. None where it has none. Takes no memory.
    pub fn take(&mut self, number: u32) -> Option<Table>
        ensures table { result ≡ table_at self.old.slots number }
        ensures left { self.new.slots ≡ slice_set self.old.slots number None }
        ensures room { self.new.room ≡ self.old.room }
    {
        let number = number as usize;
        if number < self.slots.len() {
            take_slot(&mut self.slots, number)
        } else {
            None
        }
    }

    /// Takes the table of a module out. Takes no memory.
    pub fn remove(&mut self, number: u32)
        ensures left { self.new.slots ≡ slice_set self.old.slots number None }
        ensures room { self.new.room ≡ self.old.room }
    {
        let _ = self.take(number);
    }

    /// Gives the module of this number a table, for which there is a place. Takes no memory.
    pub fn put(&mut self, number: u32, table: Table)
        requires { number < self.old.room }
        ensures put { self.new.slots ≡ slice_set self.old.slots number (Some table) }
        ensures room { self.new.room ≡ self.old.room }
    {
        put_slot(&mut self.slots, number as usize, Some(table));
    }

    /// The first exported definition of a name in the first module of the scope that has one. None exactly
    /// where no module of the scope has one. Takes no memory.
    pub fn find(&self, scope: &Numbers, name: &Name) -> Option<Found>
        ensures found { result ≡ first_definition (export_in self.now.slots name.now) scope.now }
        ensures none { IsNone result ↔ All (λ m. export_in self.now.slots name.now m ≡ None) scope.now }
    {
        found_in(&self.slots, scope.as_slice(), name)
    }

    /// The number of the first exported definition of a name in a module. Takes no memory.
    pub fn export_in(&self, number: u32, name: &Name) -> Option<u32>
        ensures { result ≡ export_in self.now.slots name.now number }
    {
        export_in(&self.slots, name, number)
    }

    /// The root and the modules that are needed from it on, breadth first over the needed names in table
    /// order, each module once. A needed name that is no module's name counts for nothing.
    pub fn closure(&self, alloc: Global, root: u32) -> Result<Numbers, Memory>
        requires { root < MAX_MODULES }
        ensures { IfOk result (IsClosure nat_eq (needs self.now.slots) (root ∷ [])) }
    {
        let members = closure_of(alloc, &self.slots, root)?;
        Ok(Seq::from_vec(members))
    }
}

fn found_in(slots: &[Option<Table>], scope: &[u32], name: &Name) -> Option<Found>
    ensures { result ≡ first_definition (export_in slots.now name.now) scope.now }
{
    for number in scope {
        if let Some(symbol) = export_in(slots, name, *number) {
            return Some(Found {
                module: *number,
                symbol,
            });
        }
    }
    None
}
