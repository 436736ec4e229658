//! What symbols mean.

ghost use Rattle.std.specs.Prelude.{◌≡◌, [], unwrap_or, Some, ◌==◌};
ghost use Rattle.std.specs.Option.{option_copied};
ghost use Rattle.symbol_scope.specs.Definition.{first_definition};
ghost use Rattle.symbol_scope.specs.Exported as exported;
ghost use Rattle.symbol_scope.specs.parts.Needs.{export_in};
ghost use Rattle.load_model.specs.Definition as spec;
ghost use Rattle.load_sites.specs.parts.Linker.{linkage, IsReady};

use crate::linker::Linker;
use elf_model::constants::{STB_LOCAL, STB_WEAK, STT_SECTION, STV_DEFAULT};
use elf_model::{Object, Place, Symbol};
use fd_base::{Name, Numbers};
use load_model::Definition;
use symbol_scope::{Found, Tables, exports_are_first};

fn is_defined(place: Place) -> bool
    ensures { result ≡ exported.is_defined place }
{
    matches!(place, Place::Here | Place::Absolute)
}

/// Whether no other module's symbol can take its place.
pub(crate) fn is_own(symbol: &Symbol) -> bool
    ensures { result ≡ spec.is_own symbol.now }
{
    symbol.binding == STB_LOCAL
        || symbol.kind == STT_SECTION
        || (is_defined(symbol.place) && symbol.visibility != STV_DEFAULT)
}

/// The first definition of a name in a scope.
fn find_in(tables: &Tables, scope: Option<&Numbers>, name: &Name) -> Option<Found>
    ensures { result ≡ first_definition (export_in tables.now.slots name.now) (unwrap_or (option_copied scope.entry) []) }
{
    tables.find(scope?, name)
}

impl<'a> Linker<'a> {
    /// The first exported definition of a name in a module.
    fn export_of(&self, m: u32, name: &Name) -> Option<u32>
        requires { IsReady self.now }
        ensures { result ≡ spec.export_of (linkage self.now) name.now m }
    {
        exports_are_first();
        self.tables.export_in(m, name)
    }

    /// The first definition of a name in a module's own scope.
    fn find(&self, m: u32, name: &Name) -> Option<Found>
        requires { IsReady self.now }
        ensures { result ≡ first_definition (spec.export_of (linkage self.now) name.now) ((linkage self.now).scopes m) }
    {
        exports_are_first();
        find_in(self.tables, self.scope(m), name)
    }

    /// What a name means in a module.
    #[tactic(auto, using(crate::proofs::LookUps::other_lookup))]
    fn lookup(&self, m: u32, o: &Object, name: &Name) -> Option<Found>
        requires { IsReady self.now }
        ensures { result ≡ spec.lookup (linkage self.now) m o.entry.now (Some name.now) }
    {
        if !o.symbolic {
            return self.find(m, name);
        }
        match self.export_of(m, name) {
            Some(symbol) => Some(Found { module: m, symbol }),
            None => self.find(m, name),
        }
    }

    /// What a symbol that isn't its own definition means in a module.
    fn definition_of(&self, m: u32, o: &Object, symbol: &Symbol) -> Definition
        requires { IsReady self.now }
        ensures { result ≡ spec.definition_or (spec.lookup (linkage self.now) m o.entry.now symbol.now.name) (symbol.now.binding == STB_WEAK) }
    {
        let found = match &symbol.name {
            Some(name) => self.lookup(m, o, name),
            None => None,
        };
        match found {
            Some(found) => Definition::Symbol(found),
            None if symbol.binding == STB_WEAK => Definition::Nothing,
            None => Definition::Unresolved,
        }
    }

    /// What symbol `s` of module `m`, whose object is `o`, means there. Takes no memory.
    pub fn definition(&self, m: u32, o: &Object, s: u32) -> Definition
        requires { IsReady self.now }
        ensures { result ≡ spec.definition_of (linkage self.now) m o.entry.now s }
    {
        let Some(symbol) = o.symbols.as_slice().get(s as usize) else {
            return Definition::Unresolved;
        };
        if is_own(symbol) {
            return Definition::Symbol(Found {
                module: m,
                symbol: s,
            });
        }
        self.definition_of(m, o, symbol)
    }
}
