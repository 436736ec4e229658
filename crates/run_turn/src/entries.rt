//! Entries by the addresses where they are placed.

ghost use Rattle.std.specs.Prelude.{◌≡◌, ◌<◌, IfOk, None, replicate};

use fd_base::Memory;
use load_model::SlotOf;
use std::alloc::Global;
use std::marker::Model;

/// How many entries are remembered at most.
const PLACES: usize = 1_024;

/// An entry of a procedure linkage table.
#[derive(Clone, Copy)]
pub struct PlacedEntry {
    /// Where it is placed.
    pub addr: u32,
    pub slot: SlotOf,
    /// The word that r9 holds in its module.
    pub got: u32,
}

/// Entries that have been found, each at the place that the number of its first word chooses.
#[derive(Drop)]
pub struct PlacedEntries {
    places: Vec<Option<PlacedEntry>>,
}

impl Model for PlacedEntries {
    ghost use Rattle.std.specs.Prelude.{◌≡◌, List, Option, length};
    ghost use Rattle.run_turn.specs.declared.entries.PlacedEntry.{PlacedEntry};

    ghost Value = { List (Option PlacedEntry) };

    ghost view = { λ e. e.places.items };

    ghost invariant = { λ e. length e.places.items ≡ 1024 };
}

impl PlacedEntries {
    ghost use Rattle.std.specs.Prelude.{◌≡◌, List, IfOk, IfSome};
    ghost use Rattle.load_map.specs.declared.entry.MapEntry.{MapEntry};
    ghost use Rattle.load_model.specs.declared.module.SymbolicProcess.{SymbolicProcess};
    ghost use Rattle.run_turn.specs.parts.Lookups.{AreEntries, IsEntry, IsEntryAt};

    /// No entry is remembered.
    pub fn new(alloc: Global) -> Result<Self, Memory>
        ensures { IfOk result (λ entries. (p : SymbolicProcess) (maps : List (List MapEntry)) → AreEntries p maps entries) }
    {
        Ok(PlacedEntries {
            places: no_entries(alloc, PLACES)?,
        })
    }

    /// The entry that is remembered at an address.
    #[inline]
    pub fn find(&self, addr: u32) -> Option<PlacedEntry>
        ensures { (p : SymbolicProcess) (maps : List (List MapEntry)) → AreEntries p maps self.now → IfSome result (IsEntryAt p maps addr) }
    {
        let place = self.places[place_of(addr)];
        match place {
            Some(entry) if entry.addr == addr => place,
            _ => None,
        }
    }

    /// Remembers an entry.
    pub fn put(&mut self, entry: PlacedEntry)
        ensures { (p : SymbolicProcess) (maps : List (List MapEntry)) → AreEntries p maps self.old → IsEntry p maps entry → AreEntries p maps self.new }
    {
        self.places[place_of(entry.addr)] = Some(entry);
    }
}

/// So many places without an entry.
fn no_entries(alloc: Global, count: usize) -> Result<Vec<Option<PlacedEntry>>, Memory>
    ensures { IfOk result (λ places. places.items ≡ replicate count None) }
{
    let mut places = Vec::new(alloc);
    for _ in 0..count {
        places.push(None)?;
    }
    Ok(places)
}

/// The place of an address.
#[inline]
fn place_of(addr: u32) -> usize
    ensures { result < 1024 }
{
    (addr / 4) as usize % PLACES
}
