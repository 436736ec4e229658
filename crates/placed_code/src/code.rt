//! Placed code.

ghost use Rattle.std.specs.Prelude.{◌≡◌, All};
ghost use Rattle.load_map.specs.parts.IsLoadMap.{EndsInside};
ghost use Rattle.load_state.specs.Loaded as loaded;
ghost use Rattle.placed_code.specs.Places as spec;
ghost use Rattle.placed_code.specs.parts.PlacedModules.{ArePlaced};

use elf_model::constants::PF_X;
use elf_model::{Func, Object, is_executable_in};
use load_map::{MapEntry, is_placed_at, map_at, placed};
use load_model::{MapEntries, SlotOf, SymbolicProcess};
use plt_code::slot_entered;

/// The link address in module `m` whose placed code lies at an address.
fn code_in(addr: u32, m: u32, object: &Object, load_map: &[MapEntry]) -> Option<Func>
    requires { All EndsInside load_map.now }
    ensures { result ≡ spec.code_in addr m object.entry.now load_map.now }
{
    for (segment, entry) in object.segments.as_slice().iter().zip(load_map) {
        if segment.flags & PF_X != 0 && is_placed_at(entry, addr) {
            return Some(Func {
                module: m,
                value: entry.vaddr + (addr - entry.addr),
            });
        }
    }
    None
}

/// The live module and the link address whose placed code lies at an address.
pub fn code_at(process: &SymbolicProcess, maps: &[MapEntries], addr: u32) -> Option<Func>
    requires { ArePlaced process.now maps.now }
    ensures { result ≡ spec.code_at process.entry.now maps.now addr }
{
    for (m, place) in process.modules.as_slice().iter().enumerate() {
        if let Some(live) = place {
            let code = code_in(addr, m as u32, &live.object, map_at(maps, m as u32));
            if code.is_some() {
                return code;
            }
        }
    }
    None
}

/// The slot whose entry of the procedure linkage table is placed at an address. None where no entry is.
pub fn entry_at(process: &SymbolicProcess, maps: &[MapEntries], addr: u32) -> Option<SlotOf>
    requires { ArePlaced process.now maps.now }
    ensures { result ≡ spec.entry_at process.entry.now maps.now addr }
{
    let place = code_at(process, maps, addr)?;
    let object = process.object_at(place.module)?;
    let slot = slot_entered(object, place.value)?;
    Some(SlotOf {
        module: place.module,
        slot,
    })
}

/// The placed address of the entry point of a module. None where no instruction may stand there.
pub fn entry_point(process: &SymbolicProcess, maps: &[MapEntries], m: u32) -> Option<u32>
    requires { ArePlaced process.now maps.now }
    ensures { result ≡ spec.entry_point process.entry.now maps.now m }
{
    let object = process.object_at(m)?;
    if object.entry % 4 != 0 || !is_executable_in(object.segments.as_slice(), object.entry) {
        return None;
    }
    Some(placed(map_at(maps, m), object.entry))
}

/// The placed address of the GOT of a live module.
pub fn got_at(process: &SymbolicProcess, maps: &[MapEntries], m: u32) -> Option<u32>
    requires { ArePlaced process.now maps.now }
    ensures { result ≡ loaded.got_at process.entry.now maps.now m }
{
    let object = process.object_at(m)?;
    Some(placed(map_at(maps, m), object.got))
}

/// The word that r9 holds in a module: its placed GOT, and 0 where none is live.
pub fn got_word(process: &SymbolicProcess, maps: &[MapEntries], m: u32) -> u32
    requires { ArePlaced process.now maps.now }
    ensures { result ≡ spec.got_word process.entry.now maps.now m }
{
    got_at(process, maps, m).unwrap_or(0)
}
