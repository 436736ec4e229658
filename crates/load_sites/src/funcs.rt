//! Functions, each once.

ghost use Rattle.std.specs.Prelude.{◌≡◌, [], map, IfOk, OnOk};
ghost use Rattle.elf_model.specs.declared.func.Func.{Func};
ghost use Rattle.symbol_scope.specs.Closure.{has, with_one};
ghost use Rattle.load_model.specs.Descriptors.{is_same_func};
ghost use Rattle.load_sites.specs.parts.Funcs.{func_of};

use elf_model::Func;
use fd_base::{Memory, Seq};
use indexmap::IndexSet;
use std::alloc::Global;
use std::marker::Model;

/// Functions in the order in which they came in, each once.
#[derive(Drop)]
pub(crate) struct Funcs {
    keys: IndexSet<(u32, u32)>,
}

impl Model for Funcs {
    ghost use Rattle.std.specs.Prelude.{List, map};
    ghost use Rattle.elf_model.specs.declared.func.Func.{Func};
    ghost use Rattle.load_sites.specs.parts.Funcs.{func_of};

    ghost Value = { List Func };

    ghost view = { λ s. map func_of s.keys.keys };
}

fn put_functions(funcs: &mut Seq<Func>, keys: &[(u32, u32)]) -> Result<(), Memory>
    requires { funcs.old ≡ [] }
    ensures { OnOk result (funcs.new ≡ map func_of keys.now) }
{
    for key in keys {
        funcs.push(Func {
            module: key.0,
            value: key.1,
        })?;
    }
    Ok(())
}

impl Funcs {
    /// No functions. Takes no memory.
    pub(crate) fn new(alloc: Global) -> Funcs
        ensures { result ≡ [] }
    {
        Funcs {
            keys: IndexSet::new(alloc),
        }
    }

    /// Whether a function is there.
    pub(crate) fn contains(&self, f: &Func) -> bool
        ensures { result ≡ has is_same_func self.now f.now }
    {
        self.keys.contains(&(f.module, f.value))
    }

    /// Adds a function that isn't there yet.
    pub(crate) fn insert(&mut self, f: &Func) -> Result<(), Memory>
        ensures { OnOk result (self.new ≡ with_one is_same_func self.old f.now) }
    {
        self.keys.insert_full((f.module, f.value))?;
        Ok(())
    }

    /// The functions as a list.
    pub(crate) fn listed(&self, alloc: Global) -> Result<Seq<Func>, Memory>
        ensures { IfOk result (λ funcs. funcs ≡ self.now) }
    {
        let mut funcs = Seq::new(alloc);
        put_functions(&mut funcs, self.keys.as_slice())?;
        Ok(funcs)
    }
}
