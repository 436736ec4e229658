//! The numbers that are free, and what a module needs.

ghost use Rattle.std.specs.Prelude.{◌≡◌, ◌≤◌, length, IfOk, OnOk, ◌++◌, not, filter, ◌∷◌, [], option_and_then, option_map, if◌then◌else◌};
ghost use Rattle.std.specs.List.{range_with_len};
ghost use Rattle.std.specs.Option.{option_copied};
ghost use Rattle.symbol_scope.specs.declared.tables.TheConstants.{MAX_MODULES};
ghost use Rattle.load_model.specs.Process.{is_live, number_of, free_numbers, object_at};
ghost use Rattle.load_model.specs.Walk.{joining_named, needed_by};

use elf_model::Object;
use fd_base::{Memory, Name, Numbers, Seq};
use load_model::{Joining, MAX_MODULES, SymbolicProcess};
use std::alloc::Global;

/// Adds a number that no live module has.
fn add_free(process: &SymbolicProcess, number: u32, free: &mut Numbers) -> Result<(), Memory>
    ensures { OnOk result (free.new ≡ free.old ++ (if is_live process.now number then [] else number ∷ [])) }
{
    if !process.is_live(number) {
        free.push(number)?;
    }
    Ok(())
}

/// The numbers below `count` that no live module has, the lowest first.
fn free_below(alloc: Global, process: &SymbolicProcess, count: u32) -> Result<Numbers, Memory>
    ensures { IfOk result (λ free. free ≡ filter (λ m. not (is_live process.now m)) (range_with_len 0 count)) }
{
    let mut free = Seq::new(alloc);
    for number in 0..count {
        add_free(process, number, &mut free)?;
    }
    Ok(free)
}

/// The numbers that no live module has, the lowest first.
pub(crate) fn free_numbers(alloc: Global, process: &SymbolicProcess) -> Result<Numbers, Memory>
    ensures { IfOk result (λ free. free ≡ free_numbers process.now) }
{
    free_below(alloc, process, MAX_MODULES)
}

/// The object of the live module of a name.
fn live_object<'a>(process: &'a SymbolicProcess, name: &Name) -> Option<&'a Object>
    requires { length process.now.modules ≤ MAX_MODULES }
    ensures { option_copied result ≡ option_and_then (object_at process.now) (number_of process.now name.now) }
{
    let number = process.number_of(name)?;
    process.object_at(number)
}

/// The object of the new module of a name.
fn joining_object<'a>(joining: &'a [Joining], name: &Name) -> Option<&'a Object>
    ensures { option_copied result ≡ option_map (λ j. j.object) (joining_named joining.now name.now) }
{
    for new in joining {
        if new.name.as_slice() == name.as_slice() {
            return Some(&new.object);
        }
    }
    None
}

/// The names that the live or new module of a name needs.
pub(crate) fn needed_by<'a>(
    process: &'a SymbolicProcess,
    joining: &'a [Joining],
    name: &Name,
) -> &'a [Name]
    requires { length process.now.modules ≤ MAX_MODULES }
    ensures { result.now ≡ needed_by process.now joining.now name.now }
{
    if let Some(object) = live_object(process, name) {
        return object.needed.as_slice();
    }
    match joining_object(joining, name) {
        Some(object) => object.needed.as_slice(),
        None => &[],
    }
}
