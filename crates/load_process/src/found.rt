//! Names that were found, each once.

ghost use Rattle.std.specs.Prelude.{◌≡◌, OnOk};
ghost use Rattle.std.specs.Str.{bytes_eq};
ghost use Rattle.symbol_scope.specs.Closure.{with_one, with_new};

use fd_base::{Memory, Name};
use indexmap::IndexSet;
use std::alloc::Global;

/// Adds a name that isn't there yet.
pub(crate) fn add_one(alloc: Global, names: &mut IndexSet<Name>, name: &Name) -> Result<(), Memory>
    ensures { OnOk result (names.new.keys ≡ with_one bytes_eq names.old.keys name.now) }
{
    if !names.contains(name) {
        names.insert_full(name.copy(alloc)?)?;
    }
    Ok(())
}

/// Adds each name that isn't there yet, in order.
pub(crate) fn add_new(
    alloc: Global,
    names: &mut IndexSet<Name>,
    more: &[Name],
) -> Result<(), Memory>
    ensures { OnOk result (names.new.keys ≡ with_new bytes_eq names.old.keys more.now) }
{
    for name in more {
        add_one(alloc, names, name)?;
    }
    Ok(())
}
