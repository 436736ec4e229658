//! What a run has looked up, kept so that it isn't looked up again.

ghost use Rattle.std.specs.Prelude.{◌≡◌, List, None, IfOk, MatchOption};
ghost use Rattle.load_map.specs.declared.entry.MapEntry.{MapEntry};
ghost use Rattle.load_model.specs.declared.module.SymbolicProcess.{SymbolicProcess};
ghost use Rattle.placed_code.specs.Places as spec;
ghost use Rattle.placed_code.specs.parts.PlacedModules.{ArePlaced};
ghost use Rattle.run_turn.specs.parts.Lookups.{AreKnown, IsEntryAt};

use crate::clear::ClearPlaces;
use crate::entries::{PlacedEntries, PlacedEntry};
use a32_machine::DecodedWords;
use fd_base::Memory;
use load_model::{MapEntries, SymbolicProcess};
use placed_code::{entry_at, got_word};
use std::alloc::Global;

/// What a run has looked up. What is known of addresses holds as long as the modules stay as they are.
#[derive(Drop)]
pub struct Lookups {
    pub(crate) words: DecodedWords,
    pub(crate) clear: ClearPlaces,
    pub(crate) entries: PlacedEntries,
}

impl Lookups {
    /// Nothing is known.
    pub fn new(alloc: Global) -> Result<Self, Memory>
        ensures { IfOk result (λ lookups. (p : SymbolicProcess) (maps : List (List MapEntry)) → AreKnown p maps lookups) }
    {
        Ok(Lookups {
            words: DecodedWords::new(alloc)?,
            clear: ClearPlaces::new(alloc)?,
            entries: PlacedEntries::new(alloc)?,
        })
    }

    /// Looks for the entry that is placed at an address, and remembers what it finds.
    #[cold]
    #[inline(never)]
    fn look_up(
        &mut self,
        process: &SymbolicProcess,
        maps: &[MapEntries],
        addr: u32,
    ) -> Option<PlacedEntry>
        requires placed { ArePlaced process.now maps.now }
        requires known { AreKnown process.now maps.now self.old }
        ensures entry { MatchOption result (spec.entry_at process.entry.now maps.now addr ≡ None) (IsEntryAt process.entry.now maps.now addr) }
        ensures known { AreKnown process.entry.now maps.now self.new }
    {
        match entry_at(process, maps, addr) {
            Some(slot) => {
                let got = got_word(process, maps, slot.module);
                let entry = PlacedEntry { addr, slot, got };
                self.entries.put(entry);
                Some(entry)
            }
            None => {
                self.clear.put(addr);
                None
            }
        }
    }

    /// The entry that is placed at an address. None where none is.
    pub(crate) fn entry(
        &mut self,
        process: &SymbolicProcess,
        maps: &[MapEntries],
        addr: u32,
    ) -> Option<PlacedEntry>
        requires placed { ArePlaced process.now maps.now }
        requires known { AreKnown process.now maps.now self.old }
        ensures entry { MatchOption result (spec.entry_at process.entry.now maps.now addr ≡ None) (IsEntryAt process.entry.now maps.now addr) }
        ensures known { AreKnown process.entry.now maps.now self.new }
    {
        if self.clear.contains(addr) {
            return None;
        }
        let known = self.entries.find(addr);
        if known.is_some() {
            return known;
        }
        self.look_up(process, maps, addr)
    }
}
