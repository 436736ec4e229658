//! Descriptors put into a guest's memory.

ghost use Rattle.std.specs.Prelude.{◌≡◌, ◌+◌, ◌≤◌, [], ◌∷◌, All, AllPairs, length};
ghost use Rattle.func_desc.specs.Functions.{AddrMap};
ghost use Rattle.guest_mem.specs.Accesses.{with_bytes};
ghost use Rattle.load_map.specs.parts.IsLoadMap.{EndsBelow};
ghost use Rattle.load_model.specs.Image.{place_of, got_of};
ghost use Rattle.load_model.specs.Layout.{bytes_of_words};
ghost use Rattle.load_state.specs.Loaded.{placing_of};
ghost use Rattle.load_places.specs.parts.Descriptors.{DescriptorsApart, HasDescriptorsPut};

use elf_model::Func;
use guest_mem::Guest;
use load_map::{map_at, placed};
use load_memory::put_pair;
use load_model::{DESCRIPTOR_SIZE, MapEntries, SymbolicProcess};

/// The placed address of a function.
fn place_of(process: &SymbolicProcess, maps: &[MapEntries], f: &Func) -> u32
    requires { All (All EndsBelow) maps.now }
    ensures { (addrs : AddrMap) → result ≡ place_of (placing_of process.now maps.now addrs) f.now }
{
    placed(map_at(maps, f.module), f.value)
}

/// The placed address of the GOT of a module.
fn got_of(process: &SymbolicProcess, maps: &[MapEntries], m: u32) -> u32
    requires { All (All EndsBelow) maps.now }
    ensures { (addrs : AddrMap) → result ≡ got_of (placing_of process.now maps.now addrs) m }
{
    match process.object_at(m) {
        Some(object) => placed(map_at(maps, m), object.got),
        None => 0,
    }
}

/// Writes the descriptor of one function at an address.
fn put_descriptor(
    guest: &mut Guest,
    process: &SymbolicProcess,
    maps: &[MapEntries],
    f: &Func,
    addr: u32,
)
    requires maps { All (All EndsBelow) maps.now }
    requires inside { addr + DESCRIPTOR_SIZE ≤ length guest.old.bytes }
    ensures { (addrs : AddrMap) → guest.new ≡ with_bytes guest.old addr (bytes_of_words
        (place_of (placing_of process.now maps.now addrs) f.now ∷ got_of (placing_of process.now maps.now addrs) f.now.module ∷ [])) }
{
    let code = place_of(process, maps, f);
    let got = got_of(process, maps, f.module);
    put_pair(guest, addr, code, got);
}

/// Writes the descriptors of functions, each at the address that is given beside it: the entry point of the function
/// and the GOT of its module, where `maps` places them. Nothing else changes. The descriptors lie apart.
pub fn put_descriptors(
    guest: &mut Guest,
    process: &SymbolicProcess,
    maps: &[MapEntries],
    given: &[(Func, u32)],
)
    requires maps { All (All EndsBelow) maps.now }
    requires inside { All (λ e. e.1 + DESCRIPTOR_SIZE ≤ length guest.old.bytes) given.now }
    requires apart { AllPairs DescriptorsApart given.now }
    ensures { HasDescriptorsPut process.now maps.now given.now guest.old guest.new }
{
    for entry in given {
        put_descriptor(guest, process, maps, &entry.0, entry.1);
    }
}
