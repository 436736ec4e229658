//! Tables by the numbers of their modules. Past the last slot there is no table.

ghost use Rattle.std.specs.Prelude.{◌≡◌, ◌≤◌, ◌<◌, None, length, slice_index_or, slice_set, IfSome, OnOk};
ghost use Rattle.std.specs.Option.{option_copied};
ghost use Rattle.symbol_scope.specs.parts.Slots.{filled_up};
ghost use Rattle.symbol_scope.specs.parts.Needs.{is_table_named, number_named, table_at, needed_by, export_in};

use crate::exports::is_same;
use crate::table::Table;
use fd_base::{Memory, Name};

/// Adds empty slots until there are `len`.
pub(crate) fn make_room(slots: &mut Vec<Option<Table>>, len: usize) -> Result<(), Memory>
    requires within { length slots.old.items ≤ 64 }
    requires small { len ≤ 64 }
    ensures room { OnOk result (len ≤ length slots.new.items) }
    ensures within { length slots.new.items ≤ 64 }
    ensures grows { length slots.old.items ≤ length slots.new.items }
    ensures stays { filled_up slots.new.items ≡ filled_up slots.old.items }
{
    while slots.len() < len {
        slots.push(None)?;
    }
    Ok(())
}

/// Puts a table, or none, into a slot.
pub(crate) fn put_slot(slots: &mut Vec<Option<Table>>, number: usize, slot: Option<Table>)
    requires { number < length slots.old.items }
    ensures { slots.new.items ≡ slice_set slots.old.items number slot }
{
    slots[number] = slot;
}

/// Takes out what stands in a slot.
pub(crate) fn take_slot(slots: &mut Vec<Option<Table>>, number: usize) -> Option<Table>
    requires { number < length slots.old.items }
    ensures value { result ≡ slice_index_or slots.old.items number None }
    ensures after { slots.new.items ≡ slice_set slots.old.items number None }
{
    slots[number].take()
}

pub(crate) fn table_at(slots: &[Option<Table>], number: u32) -> Option<&Table>
    ensures { option_copied result ≡ table_at slots.now number }
{
    slots.get(number as usize)?.as_ref()
}

fn is_table_named(slot: &Option<Table>, name: &Name) -> bool
    ensures { result ≡ is_table_named name.now slot.now }
{
    match slot {
        Some(table) => is_same(name, &table.name),
        None => false,
    }
}

fn place_of(slots: &[Option<Table>], name: &Name) -> Option<usize>
    ensures value { result ≡ number_named slots.now name.now }
    ensures within { IfSome result (λ place. place < length slots.now) }
{
    slots.iter().position(|slot| is_table_named(slot, name))
}

/// The number of the module of a name.
pub(crate) fn number_of(slots: &[Option<Table>], name: &Name) -> Option<u32>
    requires { length slots.now ≤ 64 }
    ensures value { result ≡ number_named slots.now name.now }
    ensures small { IfSome result (λ number. number < 64) }
{
    match place_of(slots, name) {
        Some(place) => Some(place as u32),
        None => None,
    }
}

/// The names that a module needs.
pub(crate) fn needed_by(slots: &[Option<Table>], number: u32) -> &[Name]
    ensures { result.now ≡ needed_by slots.now number }
{
    match table_at(slots, number) {
        Some(table) => table.needed.as_slice(),
        None => &[],
    }
}

/// The number of the first exported definition of a name in a module.
pub(crate) fn export_in(slots: &[Option<Table>], name: &Name, number: u32) -> Option<u32>
    ensures { result ≡ export_in slots.now name.now number }
{
    table_at(slots, number)?.exports.get(name)
}
