//! What turns of a thread do to the memory, the threads and the journal.

ghost use Rattle.std.specs.Prelude.{◌≡◌, ◌<◌, List, true, IfOk, OnOk, All, Some, length};
ghost use Rattle.guest_mem.specs.parts.Kept.{Keeps};
ghost use Rattle.load_map.specs.declared.entry.MapEntry.{MapEntry};
ghost use Rattle.load_model.specs.declared.module.SymbolicProcess.{SymbolicProcess};
ghost use Rattle.load_state.specs.Consistent.{IsConsistent};
ghost use Rattle.run_turn.specs.parts.Lookups.{AreKnown};
ghost use Rattle.run_model.specs.declared.thread.Thread.{Thread};
ghost use Rattle.run_model.specs.State.{lives, thread_at};
ghost use Rattle.run_model.specs.Turns.{turn_of};
ghost use Rattle.proc_run.specs.parts.QuietRuns.{Passes};
ghost use Rattle.proc_run.specs.parts.TakenTurns.{HasPassedOn};
ghost use Rattle.run_turn.specs.parts.CallsInProgress.{AreInProgress};
ghost use Rattle.run_turn.specs.parts.Remainder.{state_with};

use fd_base::Memory;
use mod_load::Loader;
use placed_code::consistent_are_placed;
use run_model::{Stop, Thread, Turned};
use run_turn::{
    Events, Lookups, Passed, PlacedModules, Settled, is_quiet, obey_on, settle, stopped, stops_keep,
};
use std::alloc::Global;

/// Lets a live thread obey instructions from its pc on, at most so many, up to one of which something may be told.
fn obeyed_on(
    alloc: Global,
    lookups: &mut Lookups,
    loader: &mut Loader,
    threads: &mut [Option<Thread>],
    t: u32,
    most: u32,
) -> Result<Passed, Memory>
    requires lives { lives threads.old t ≡ true }
    requires calls { All AreInProgress threads.old }
    ensures obeyed { (thread : Thread) (p : SymbolicProcess) (maps : List (List MapEntry)) → thread_at threads.old t ≡ Some thread → AreKnown p maps lookups.old
        → IfOk result (HasPassedOn p maps most loader.old.loaded loader.new.loaded threads.old threads.new t thread) }
    ensures keeps { Keeps loader.old.loaded.memory loader.new.loaded.memory }
    ensures rest { loader.new.loaded ≡ record loader.old.loaded { memory = loader.new.loaded.memory } }
    ensures known { (p : SymbolicProcess) (maps : List (List MapEntry)) → AreKnown p maps lookups.old → AreKnown p maps lookups.new }
    ensures calls { All AreInProgress threads.new }
{
    match &mut threads[t as usize] {
        Some(thread) => obey_on(alloc, lookups, thread, loader.guest(), most),
        None => unreachable!(),
    }
}

/// Takes turns of a live thread, one at least, and as many as are left at most, up to one of which something is to be told.
/// None where there is no such turn.
pub(crate) fn pass_turns(
    alloc: Global,
    lookups: &mut Lookups,
    loader: &mut Loader,
    threads: &mut [Option<Thread>],
    steps: &mut u32,
    limit: u32,
    t: u32,
    left: &mut u32,
) -> Result<Option<Settled>, Memory>
    requires lives { lives threads.old t ≡ true }
    requires calls { All AreInProgress threads.old }
    requires consistent { IsConsistent loader.old.loaded }
    requires known { AreKnown loader.old.loaded.modules.process loader.old.loaded.modules.maps lookups.old }
    requires some { 0 < left.old }
    ensures taken { IfOk result (λ r. Passes limit t r left.old left.new (state_with loader.old.loaded threads.old steps.old) (state_with loader.new.loaded threads.new steps.new)) }
    ensures consistent { OnOk result (IsConsistent loader.new.loaded) }
    ensures count { OnOk result (length threads.new ≡ length threads.old) }
    ensures calls { OnOk result (All AreInProgress threads.new) }
    ensures known { AreKnown loader.new.loaded.modules.process loader.new.loaded.modules.maps lookups.new }
{
    if *steps >= limit {
        let last = stopped(alloc, *steps, t, Stop::Limit)?;
        *left -= 1;
        return Ok(Some(last));
    }
    loader.whole();
    consistent_are_placed();
    stops_keep();
    let most = (*left).min(limit - *steps);
    let passed = obeyed_on(alloc, lookups, loader, threads, t, most)?;
    let Passed { quiet, last } = passed;
    *steps += quiet;
    *left -= quiet;
    let Some(served) = last else {
        return Ok(None);
    };
    *left -= 1;
    let modules = PlacedModules {
        process: loader.process(),
        maps: loader.maps(),
    };
    if is_quiet(&modules, lookups, threads, t, &served) {
        *steps += 1;
        return Ok(None);
    }
    let settled = settle(alloc, lookups, &modules, threads, steps, t, served)?;
    Ok(Some(settled))
}

/// Takes a turn of a live thread.
pub(crate) fn take_turn(
    alloc: Global,
    lookups: &mut Lookups,
    loader: &mut Loader,
    threads: &mut [Option<Thread>],
    steps: &mut u32,
    limit: u32,
    t: u32,
) -> Result<Settled, Memory>
    requires lives { lives threads.old t ≡ true }
    requires calls { All AreInProgress threads.old }
    requires consistent { IsConsistent loader.old.loaded }
    requires known { AreKnown loader.old.loaded.modules.process loader.old.loaded.modules.maps lookups.old }
    ensures taken { IfOk result (λ r. turn_of limit (state_with loader.old.loaded threads.old steps.old) t
        ≡ record { answer = r.answer; state = state_with loader.new.loaded threads.new steps.new; events = r.events }) }
    ensures consistent { OnOk result (IsConsistent loader.new.loaded) }
    ensures count { OnOk result (length threads.new ≡ length threads.old) }
    ensures calls { OnOk result (All AreInProgress threads.new) }
    ensures known { AreKnown loader.new.loaded.modules.process loader.new.loaded.modules.maps lookups.new }
{
    let mut left = 1;
    let passed = pass_turns(alloc, lookups, loader, threads, steps, limit, t, &mut left)?;
    match passed {
        Some(settled) => Ok(settled),
        None => Ok(Settled {
            answer: Turned::Next,
            events: Events::new(alloc),
        }),
    }
}
