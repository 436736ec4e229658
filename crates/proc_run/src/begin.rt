//! The first thread of a process, and the events before its first step.

ghost use Rattle.std.specs.Prelude.{◌≡◌, ◌<◌, ◌≤◌, ◌^◌, ◌++◌, false, map, replicate, set, IfOk, OnOk, None, Some, All, length};
ghost use Rattle.load_state.specs.Loaded.{Loaded};
ghost use Rattle.std.specs.Option.{option_to_list};
ghost use Rattle.placed_code.specs.parts.PlacedModules.{ArePlaced};
ghost use Rattle.run_model.specs.Calls.{call_begun};
ghost use Rattle.run_model.specs.Start as spec;
ghost use Rattle.run_model.specs.Turns.{entering};
ghost use Rattle.proc_run.specs.BegunProcess.{thread_at_entry};
ghost use Rattle.run_turn.specs.parts.CallsInProgress.{BeganInTurn};
ghost use Rattle.run_turn.specs.parts.Lookups.{AreKnown};

use a32_machine::Cpu;
use fd_base::Memory;
use load_model::{Live, MapEntries, PROCESS_END, SymbolicProcess};
use placed_code::got_word;
use run_model::{Call, Calls, Event, Thread};
use run_turn::{Events, Lookups, call_begun};
use std::alloc::Global;

// ---- events

/// Puts the events of a live module.
fn put_load(alloc: Global, number: u32, live: &Live, events: &mut Events) -> Result<(), Memory>
    ensures { OnOk result (events.new ≡ events.old ++ spec.load_events_of number live.now) }
{
    events.push(Event::Load {
        number,
        name: live.name.copy(alloc)?,
    })?;
    if live.object.inits.has_any() {
        events.push(Event::Skipped { number })?;
    }
    Ok(())
}

/// Puts the events of the live modules, by number.
fn put_loads(alloc: Global, process: &SymbolicProcess, events: &mut Events) -> Result<(), Memory>
    requires { length process.now.modules < 2 ^ 32 }
    ensures { OnOk result (events.new ≡ events.old ++ spec.load_events process.now) }
{
    for (m, place) in process.modules.as_slice().iter().enumerate() {
        if let Some(live) = place {
            put_load(alloc, m as u32, live, events)?;
        }
    }
    Ok(())
}

/// Puts the events of calls that begin before the first step.
fn put_calls(calls: &[Call], events: &mut Events) -> Result<(), Memory>
    ensures { OnOk result (events.new ≡ events.old ++ map (entering 0 0) calls.now) }
{
    for call in calls {
        events.push(Event::Enter {
            step: 0,
            thread: 0,
            number: call.number,
            slot: call.slot,
        })?;
    }
    Ok(())
}

/// The events before the first step.
pub(crate) fn first_events(
    alloc: Global,
    process: &SymbolicProcess,
    thread: &Thread,
) -> Result<Events, Memory>
    requires { length process.now.modules < 2 ^ 32 }
    ensures { IfOk result (λ events. events ≡ spec.load_events process.now ++ map (entering 0 0) thread.now.calls) }
{
    let mut events = Events::new(alloc);
    put_loads(alloc, process, &mut events)?;
    put_calls(thread.calls.as_slice(), &mut events)?;
    Ok(events)
}

// ---- threads

/// The registers with which thread 0 begins.
fn first_cpu(got: u32, stack_end: u32, entry: u32) -> Cpu
    ensures { result ≡ record { r = spec.first_registers got stack_end entry; n = false; z = false; c = false; v = false } }
{
    let mut r = [0; 16];
    r[9] = got;
    r[13] = stack_end;
    r[14] = PROCESS_END;
    r[15] = entry;
    Cpu {
        r,
        n: false,
        z: false,
        c: false,
        v: false,
    }
}

/// The call that begins with these registers, if any.
fn first_calls(
    lookups: &mut Lookups,
    process: &SymbolicProcess,
    maps: &[MapEntries],
    cpu: &Cpu,
) -> Calls
    requires placed { ArePlaced process.now maps.now }
    requires known { AreKnown process.now maps.now lookups.old }
    ensures calls { result ≡ option_to_list (call_begun process.now maps.now cpu.now) }
    ensures progress { BeganInTurn result }
    ensures known { AreKnown process.entry.now maps.now lookups.new }
{
    let mut calls = Calls::new();
    if let Some(call) = call_begun(lookups, process, maps, cpu) {
        calls.push(call);
    }
    calls
}

/// Thread 0 at the entry point of the program, with this end of its stack.
pub(crate) fn first_thread(
    lookups: &mut Lookups,
    process: &SymbolicProcess,
    maps: &[MapEntries],
    stack_end: u32,
    entry: u32,
) -> Thread
    requires placed { ArePlaced process.now maps.now }
    requires known { AreKnown process.now maps.now lookups.old }
    ensures thread { (l : Loaded) → l.modules.process ≡ process.now → l.modules.maps ≡ maps.now → l.modules.plan.memory ≡ stack_end
        → result ≡ thread_at_entry l entry }
    ensures calls { BeganInTurn result.calls }
    ensures known { AreKnown process.entry.now maps.now lookups.new }
{
    let cpu = first_cpu(got_word(process, maps, 0), stack_end, entry);
    let calls = first_calls(lookups, process, maps, &cpu);
    Thread {
        cpu,
        refusal: 0,
        calls,
    }
}

/// So many places of threads, none of which live.
fn no_threads(alloc: Global, count: u32) -> Result<Vec<Option<Thread>>, Memory>
    ensures { IfOk result (λ threads. threads.items ≡ replicate count None) }
{
    let mut threads = Vec::new(alloc);
    for _ in 0..count {
        threads.push(None)?;
    }
    Ok(threads)
}

/// The threads of a process with so many places, whose thread 0 alone lives.
pub(crate) fn threads_with(
    alloc: Global,
    count: u32,
    thread: Thread,
) -> Result<Vec<Option<Thread>>, Memory>
    requires { 0 < count }
    ensures { IfOk result (λ threads. threads.items ≡ set (replicate count None) 0 (Some thread)) }
{
    let mut threads = no_threads(alloc, count)?;
    threads[0] = Some(thread);
    Ok(threads)
}
