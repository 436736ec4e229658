//! Addresses at which no entry is placed.

ghost use Rattle.std.specs.Prelude.{◌<◌};

use fd_base::Memory;
use std::alloc::Global;
use std::marker::Model;

/// How many addresses are remembered at most.
const PLACES: usize = 4_096;

/// What stands where no address is remembered: no address is as high.
const NOWHERE: u64 = 0x1_0000_0000;

/// Addresses at which no entry was placed when they were looked at, each at the place that the number of its word chooses.
#[derive(Drop)]
pub struct ClearPlaces {
    places: Vec<u64>,
}

impl Model for ClearPlaces {
    ghost use Rattle.std.specs.Prelude.{◌≡◌, ℕ, List, length};

    ghost Value = { List ℕ };

    ghost view = { λ c. c.places.items };

    ghost invariant = { λ c. length c.places.items ≡ 4096 };
}

impl ClearPlaces {
    ghost use Rattle.std.specs.Prelude.{◌≡◌, List, None, IfOk, true};
    ghost use Rattle.load_map.specs.declared.entry.MapEntry.{MapEntry};
    ghost use Rattle.load_model.specs.declared.module.SymbolicProcess.{SymbolicProcess};
    ghost use Rattle.placed_code.specs.Places as spec;
    ghost use Rattle.run_turn.specs.parts.Lookups.{AreClear};

    /// No address is remembered.
    pub fn new(alloc: Global) -> Result<Self, Memory>
        ensures { IfOk result (λ places. (p : SymbolicProcess) (maps : List (List MapEntry)) → AreClear p maps places) }
    {
        let places = vec![in alloc; NOWHERE; PLACES]?;
        Ok(ClearPlaces { places })
    }

    /// Whether an address is remembered.
    #[inline(always)]
    pub fn contains(&self, addr: u32) -> bool
        ensures { result ≡ true → (p : SymbolicProcess) (maps : List (List MapEntry)) → AreClear p maps self.now → spec.entry_at p maps addr ≡ None }
    {
        self.places[place_of(addr)] == addr as u64
    }

    /// Remembers an address.
    pub fn put(&mut self, addr: u32)
        ensures { (p : SymbolicProcess) (maps : List (List MapEntry)) → AreClear p maps self.old → spec.entry_at p maps addr ≡ None → AreClear p maps self.new }
    {
        self.places[place_of(addr)] = addr as u64;
    }
}

/// The place of an address.
#[inline(always)]
fn place_of(addr: u32) -> usize
    ensures { result < 4096 }
{
    (addr / 4) as usize % PLACES
}
