//! Closures over needed names.

ghost use Rattle.std.specs.Prelude.{◌≡◌, ◌≤◌, ◌<◌, [], ◌∷◌, length, nat_eq, IfOk, OnOk};
ghost use Rattle.std.specs.List.{filter_map};
ghost use Rattle.symbol_scope.specs.Closure.{with_new, IsClosure};
ghost use Rattle.symbol_scope.specs.parts.Marks.{IsMarked};
ghost use Rattle.symbol_scope.specs.parts.Needs.{number_named, needs};

use crate::slots::{needed_by, number_of};
use crate::table::Table;
use crate::tables::MAX_MODULES;
use fd_base::{Memory, Name};
use std::alloc::Global;

/// Adds a module that isn't there yet.
fn add_new(seen: &mut Vec<bool>, found: &mut Vec<u32>, number: u32) -> Result<(), Memory>
    requires small { number < 64 }
    requires marked { IsMarked seen.old.items found.old.items }
    ensures found { OnOk result (found.new.items ≡ with_new nat_eq found.old.items (number ∷ [])) }
    ensures marked { OnOk result (IsMarked seen.new.items found.new.items) }
{
    if !seen[number as usize] {
        found.push(number)?;
        seen[number as usize] = true;
    }
    Ok(())
}

/// Adds the module of a name.
fn add_one(
    slots: &[Option<Table>],
    name: &Name,
    seen: &mut Vec<bool>,
    found: &mut Vec<u32>,
) -> Result<(), Memory>
    requires within { length slots.now ≤ 64 }
    requires marked { IsMarked seen.old.items found.old.items }
    ensures found { OnOk result (found.new.items ≡ with_new nat_eq found.old.items (filter_map (number_named slots.now) (name.now ∷ []))) }
    ensures marked { OnOk result (IsMarked seen.new.items found.new.items) }
{
    match number_of(slots, name) {
        Some(number) => add_new(seen, found, number),
        None => Ok(()),
    }
}

/// Adds the modules of these names.
fn add_named(
    slots: &[Option<Table>],
    names: &[Name],
    seen: &mut Vec<bool>,
    found: &mut Vec<u32>,
) -> Result<(), Memory>
    requires within { length slots.now ≤ 64 }
    requires marked { IsMarked seen.old.items found.old.items }
    ensures found { OnOk result (found.new.items ≡ with_new nat_eq found.old.items (filter_map (number_named slots.now) names.now)) }
    ensures marked { OnOk result (IsMarked seen.new.items found.new.items) }
{
    for name in names {
        add_one(slots, name, seen, found)?;
    }
    Ok(())
}

/// No marks.
fn unmarked(alloc: Global) -> Result<Vec<bool>, Memory>
    ensures { IfOk result (λ seen. IsMarked seen.items []) }
{
    let seen = vec![in alloc; false; MAX_MODULES as usize]?;
    Ok(seen)
}

/// The root and the modules that are needed from it on, in breadth, each once.
pub(crate) fn closure_of(
    alloc: Global,
    slots: &[Option<Table>],
    root: u32,
) -> Result<Vec<u32>, Memory>
    requires within { length slots.now ≤ 64 }
    requires root { root < 64 }
    ensures { IfOk result (λ members. IsClosure nat_eq (needs slots.now) (root ∷ []) members.items) }
{
    let mut seen = unmarked(alloc)?;
    let mut found = Vec::new(alloc);
    add_new(&mut seen, &mut found, root)?;
    let mut next = 0;
    while next < found.len() {
        let number = found[next];
        add_named(slots, needed_by(slots, number), &mut seen, &mut found)?;
        next += 1;
    }
    Ok(found)
}
