//! What is asked of a loader.

ghost use Rattle.std.specs.Prelude.{◌≡◌, find};
ghost use Rattle.std.specs.Borrow.{sem};
ghost use Rattle.std.specs.List.{list_any, range_with_len};
ghost use Rattle.fd_base.specs.Ranges.{is_in};
ghost use Rattle.mod_load.specs.parts.Accessors as spec;

use crate::loader::Loader;
use crate::targets::target_at;
use elf_model::Func;
use guest_mem::Guest;
use load_map::{MapEntry, is_placed_at, map_at};
use load_model::{MAX_MODULES, MapEntries, SlotOf, SymbolicProcess};
use placed_code::{code_at, entry_at, entry_point, got_at};

impl Loader {
    ghost use Rattle.std.specs.Prelude.{◌≡◌, ◌^◌, ◌<◌};
    ghost use Rattle.load_model.specs.Process.{is_live};
    ghost use Rattle.load_model.specs.Unbound.{is_unbound, next_unbound};
    ghost use Rattle.load_state.specs.Consistent.{IsConsistent};
    ghost use Rattle.load_state.specs.Loaded.{got_at};
    ghost use Rattle.load_state.specs.Slots.{slot_def};
    ghost use Rattle.placed_code.specs.Places.{code_at, entry_at, entry_point};
    ghost use Rattle.mod_load.specs.parts.Accessors.{module_at, is_skipped};
    ghost use Rattle.mod_load.specs.parts.Loans.{LendsGuest};

    /// The memory of the process, for its program to run in. What is written there is all that changes.
    pub fn guest(&mut self) -> &mut Guest
        ensures* writes_back { sem 𝓛 (LendsGuest self.entry result) }
        ensures value { result.now ≡ self.old.loaded.memory }
    {
        &mut self.guest
    }

    /// What is true of each loader, for a caller's proof. It does nothing.
    pub fn whole(&self)
        ensures { self.now.loaded.modules.plan.memory < 2 ^ 32 }
    {
        let _memory = self.plan.memory;
    }

    /// The live modules, without addresses.
    pub fn process(&self) -> &SymbolicProcess
        ensures { result.now ≡ self.now.loaded.modules.process }
    {
        &self.process
    }

    /// The load map of each module, by number.
    pub fn maps(&self) -> &[MapEntries]
        ensures { result.now ≡ self.now.loaded.modules.maps }
    {
        self.maps.as_slice()
    }

    /// Whether a module of this number is live.
    pub fn live(&self, m: u32) -> bool
        ensures { result ≡ is_live self.now.loaded.modules.process m }
    {
        self.process.is_live(m)
    }

    /// The placed address of the GOT of a live module.
    pub fn got(&self, m: u32) -> Option<u32>
        requires { IsConsistent self.now.loaded }
        ensures { result ≡ got_at self.now.loaded.modules.process self.now.loaded.modules.maps m }
    {
        self.guest.whole();
        got_at(&self.process, self.maps.as_slice(), m)
    }

    /// The placed address of the entry point of a live module. None where its link address isn't a multiple of 4 in an
    /// executable segment of the module.
    pub fn entry_point(&self, m: u32) -> Option<u32>
        requires { IsConsistent self.now.loaded }
        ensures { result ≡ entry_point self.now.loaded.modules.process self.now.loaded.modules.maps m }
    {
        self.guest.whole();
        entry_point(&self.process, self.maps.as_slice(), m)
    }

    /// The slot whose entry of the procedure linkage table is placed at this address. None exactly where no entry is.
    pub fn entry_at(&self, addr: u32) -> Option<SlotOf>
        requires { IsConsistent self.now.loaded }
        ensures { result ≡ entry_at self.now.loaded.modules.process self.now.loaded.modules.maps addr }
    {
        self.guest.whole();
        entry_at(&self.process, self.maps.as_slice(), addr)
    }

    /// The live module whose placed code lies at this address, and the link address of that code. None exactly where no
    /// executable segment holds the address.
    pub fn func_of(&self, pc: u32) -> Option<Func>
        requires { IsConsistent self.now.loaded }
        ensures { result ≡ code_at self.now.loaded.modules.process self.now.loaded.modules.maps pc }
    {
        self.guest.whole();
        code_at(&self.process, self.maps.as_slice(), pc)
    }

    /// The number of the module that has a placed segment at this address.
    pub fn module_at(&self, addr: u32) -> Option<u32>
        ensures { result ≡ module_at self.now.loaded.modules.maps addr }
    {
        first_at(self.maps.as_slice(), addr, MAX_MODULES)
    }

    /// Whether slot `k` of module `m` is unbound.
    pub fn unbound(&self, m: u32, k: u32) -> bool
        ensures { result ≡ is_unbound self.now.loaded.modules.process m k }
    {
        self.process.is_unbound(m, k)
    }

    /// The function to which slot `k` of module `m` leads when it is bound. None for a weak symbol without a definition,
    /// and where there is no such module or slot. One look, which takes no memory.
    pub fn slot_def(&self, m: u32, k: u32) -> Option<Func>
        ensures { result ≡ slot_def self.now.loaded.modules.process m k }
    {
        target_at(self.targets.as_slice(), m, k)
    }

    /// The first unbound slot: of the lowest module that has one, the lowest. None exactly where every slot is bound.
    pub fn next_unbound(&self) -> Option<SlotOf>
        requires { IsConsistent self.now.loaded }
        ensures { result ≡ next_unbound self.now.loaded.modules.process }
    {
        self.process.next_unbound()
    }

    /// Whether a live module has functions that should be called before its program, or after it. They are not called.
    pub fn skipped(&self, m: u32) -> bool
        ensures { result ≡ is_skipped self.now.loaded.modules.process m }
    {
        match self.process.object_at(m) {
            Some(object) => object.inits.has_any(),
            None => false,
        }
    }
}

fn holds(load_map: &[MapEntry], addr: u32) -> bool
    ensures { result ≡ list_any (λ e. is_in e.addr e.memsz addr) load_map.now }
{
    load_map.iter().any(|entry| is_placed_at(entry, addr))
}

fn lies_in(maps: &[MapEntries], addr: u32, m: u32) -> bool
    ensures { result ≡ spec.lies_in maps.now addr m }
{
    holds(map_at(maps, m), addr)
}

/// The first module of a number below `count` that lies at an address.
fn first_at(maps: &[MapEntries], addr: u32, count: u32) -> Option<u32>
    ensures { result ≡ find (spec.lies_in maps.now addr) (range_with_len 0 count) }
{
    for m in 0..count {
        if lies_in(maps, addr, m) {
            return Some(m);
        }
    }
    None
}
