//! Calls that begin.

ghost use Rattle.std.specs.Prelude.{◌≡◌, IfSome};
ghost use Rattle.placed_code.specs.parts.PlacedModules.{ArePlaced};
ghost use Rattle.run_model.specs.Calls as spec;
ghost use Rattle.run_turn.specs.parts.CallsInProgress.{IsInProgress};
ghost use Rattle.run_turn.specs.parts.Lookups.{AreKnown};

use crate::lookups::Lookups;
use a32_machine::Cpu;
use load_model::{MapEntries, SymbolicProcess};
use run_model::{BOUND_CALL, Call};

/// The call that begins with this cpu: its pc is at a placed entry of a slot, and r9 is the GOT of the entry's module.
pub fn call_begun(
    lookups: &mut Lookups,
    process: &SymbolicProcess,
    maps: &[MapEntries],
    cpu: &Cpu,
) -> Option<Call>
    requires placed { ArePlaced process.now maps.now }
    requires known { AreKnown process.now maps.now lookups.old }
    ensures value { result ≡ spec.call_begun process.entry.now maps.now cpu.entry.now }
    ensures progress { IfSome result IsInProgress }
    ensures none_done { IfSome result (λ call. call.done ≡ 0) }
    ensures known { AreKnown process.entry.now maps.now lookups.new }
{
    let entry = lookups.entry(process, maps, cpu.r[15])?;
    if cpu.r[9] != entry.got {
        return None;
    }
    Some(Call {
        number: entry.slot.module,
        slot: entry.slot.slot,
        length: BOUND_CALL,
        done: 0,
        begin: *cpu,
    })
}
