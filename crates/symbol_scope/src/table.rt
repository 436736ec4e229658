//! What is kept of a module.

ghost use Rattle.std.specs.Prelude.{◌≡◌, ◌≤◌, ◌^◌, length, IfOk};

use crate::exports::Exports;
use elf_model::Object;
use fd_base::{Memory, Name, Names, Seq};
use std::alloc::Global;

/// What is kept of a module for the search of names.
#[derive(Drop)]
pub struct Table {
    /// Its name.
    pub name: Name,
    /// The names of the modules that it needs, in table order.
    pub needed: Names,
    /// Its exported names.
    pub exports: Exports,
}

impl Table {
    ghost use Rattle.std.specs.Prelude.{◌≡◌, ◌≤◌, ◌^◌, length, IfOk};
    ghost use Rattle.symbol_scope.specs.Table.{table_of};

    /// The table of a module of this name.
    pub fn of(alloc: Global, name: &Name, o: &Object) -> Result<Table, Memory>
        requires { length o.now.symbols ≤ 2 ^ 32 }
        ensures { IfOk result (λ t. t ≡ table_of name.now o.entry.now) }
    {
        let name = name.copy(alloc)?;
        let needed = copied(alloc, o.needed.as_slice())?;
        let exports = Exports::of(alloc, o.symbols.as_slice())?;
        Ok(Table {
            name,
            needed,
            exports,
        })
    }
}

fn copied(alloc: Global, names: &[Name]) -> Result<Names, Memory>
    ensures { IfOk result (λ copy. copy ≡ names.now) }
{
    let mut copies = Seq::new(alloc);
    for name in names {
        let copy = name.copy(alloc)?;
        copies.push(copy)?;
    }
    Ok(copies)
}
