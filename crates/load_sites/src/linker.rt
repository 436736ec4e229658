//! The modules among which names are resolved.

ghost use Rattle.std.specs.Prelude.{◌≡◌, [], unwrap_or};
ghost use Rattle.std.specs.Option.{option_copied};
ghost use Rattle.load_sites.specs.parts.Linker.{linkage};

use crate::joining::joining_at;
use elf_model::Object;
use fd_base::Numbers;
use load_model::{Joining, SymbolicProcess};
use symbol_scope::Tables;

/// Live modules and those that a load adds, and the tables in which names are looked up.
#[derive(Clone, Copy, Drop)]
pub struct Linker<'a> {
    /// The live modules.
    pub process: &'a SymbolicProcess,
    /// The modules that the load adds.
    pub joining: &'a [Joining],
    /// The numbers of the modules in which the symbols of each new module are looked up, in this order.
    pub scope: &'a Numbers,
    /// The exported names of all of them.
    pub tables: &'a Tables,
}

impl<'a> Linker<'a> {
    /// The object of the module of this number, new or live.
    #[tactic(auto, unfolding(crate::specs::parts::Linker::linkage))]
    pub fn object(&self, m: u32) -> Option<&'a Object>
        ensures { option_copied result ≡ (linkage self.now).objects m }
    {
        match joining_at(self.joining, m) {
            Some(new) => Some(&new.object),
            None => self.process.object_at(m),
        }
    }

    /// The scope of the module of this number. None is an empty one.
    #[tactic(auto, unfolding(crate::specs::parts::Linker::linkage))]
    pub(crate) fn scope(&self, m: u32) -> Option<&'a Numbers>
        ensures { unwrap_or (option_copied result) [] ≡ (linkage self.now).scopes m }
    {
        match joining_at(self.joining, m) {
            Some(_) => Some(self.scope),
            None => self.process.group_scope(m),
        }
    }
}
