//! The calls of a thread after a step.

ghost use Rattle.std.specs.Prelude.{◌≡◌, ◌<◌, ◌++◌, OnOk, All, filter, map, not};
ghost use Rattle.std.specs.List.{flat_map};
ghost use Rattle.placed_code.specs.Places.{code_at};
ghost use Rattle.placed_code.specs.parts.PlacedModules.{ArePlaced};
ghost use Rattle.run_model.specs.Turns as spec;
ghost use Rattle.run_turn.specs.parts.CallsInProgress.{BeganInTurn};
ghost use Rattle.run_turn.specs.parts.Lookups.{AreKnown};

use crate::begun::call_begun;
use crate::lookups::Lookups;
use crate::placed::{PlacedModules, Step};
use elf_model::Func;
use fd_base::{Memory, Seq};
use placed_code::code_at;
use run_model::{Call, Calls, Event, Thread};

/// Events in order.
pub type Events = Seq<Event>;

/// Puts the arrival of a call at the place that the pc names, if it names one.
fn put_arrival(events: &mut Events, done: Step, place: &Option<Func>) -> Result<(), Memory>
    ensures { OnOk result (events.new ≡ events.old ++ spec.arrival done.step done.thread place.now) }
{
    match place {
        Some(at) => events.push(Event::Arrive {
            step: done.step,
            thread: done.thread,
            at: *at,
        }),
        None => Ok(()),
    }
}

/// Puts the arrivals of the calls all of whose steps are done.
fn put_arrivals(
    events: &mut Events,
    done: Step,
    place: &Option<Func>,
    calls: &[Call],
) -> Result<(), Memory>
    ensures { OnOk result (events.new ≡ events.old
        ++ flat_map (λ call. spec.arrival done.step done.thread place.now) (filter spec.is_complete calls.now)) }
{
    for call in calls {
        if call.is_complete() {
            put_arrival(events, done, place)?;
        }
    }
    Ok(())
}

/// Moves the calls of a thread on by one more step of it: those that arrive, at the pc that it has now, have their events.
/// Where there are none, nothing is looked up. Only events take memory.
fn advance(
    modules: &PlacedModules,
    done: Step,
    pc: u32,
    calls: &mut Calls,
    events: &mut Events,
) -> Result<(), Memory>
    requires placed { ArePlaced modules.now.process.now modules.now.maps.now }
    requires calls { BeganInTurn calls.old }
    ensures left { OnOk result (calls.new ≡ filter (λ call. not (spec.is_complete call)) (map spec.advanced calls.old)) }
    ensures events { OnOk result (events.new ≡ events.old
        ++ flat_map (λ call. spec.arrival done.step done.thread (code_at modules.entry.now.process.now modules.entry.now.maps.now pc))
        (filter spec.is_complete (map spec.advanced calls.old))) }
    ensures calls { OnOk result (BeganInTurn calls.new) }
    ensures begun { OnOk result (All (λ call. 0 < call.done) calls.new) }
{
    if calls.is_empty() {
        return Ok(());
    }
    let place = code_at(modules.process, modules.maps, pc);
    calls.advance();
    put_arrivals(events, done, &place, calls.as_slice())?;
    calls.remove_complete();
    Ok(())
}

/// Moves the calls of a thread on after a step of it: those that arrive have their events, and so has the one that begins
/// where the thread stands now.
pub fn follow(
    lookups: &mut Lookups,
    modules: &PlacedModules,
    done: Step,
    thread: &mut Thread,
    events: &mut Events,
) -> Result<(), Memory>
    requires placed { ArePlaced modules.now.process.now modules.now.maps.now }
    requires known { AreKnown modules.now.process.now modules.now.maps.now lookups.old }
    requires calls { BeganInTurn thread.old.calls }
    ensures thread { OnOk result (thread.new ≡ spec.with_calls modules.entry.now.process.now modules.entry.now.maps.now thread.old) }
    ensures events { OnOk result (events.new ≡ events.old
        ++ spec.call_events modules.entry.now.process.now modules.entry.now.maps.now done.step done.thread thread.old) }
    ensures calls { OnOk result (BeganInTurn thread.new.calls) }
    ensures known { AreKnown modules.entry.now.process.now modules.entry.now.maps.now lookups.new }
{
    let pc = thread.cpu.r[15];
    advance(modules, done, pc, &mut thread.calls, events)?;
    if let Some(call) = call_begun(lookups, modules.process, modules.maps, &thread.cpu) {
        events.push(Event::Enter {
            step: done.step,
            thread: done.thread,
            number: call.number,
            slot: call.slot,
        })?;
        thread.calls.push(call);
    }
    Ok(())
}
