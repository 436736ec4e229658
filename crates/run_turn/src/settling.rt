//! What an instruction does to the threads and the journal.

ghost use Rattle.std.specs.Prelude.{◌≡◌, ◌+◌, [], ◌∷◌, ◌++◌, ◌<◌, ◌^◌, set, IfOk, OnOk, All, None, Some, length, map};
ghost use Rattle.load_state.specs.Loaded.{Loaded};
ghost use Rattle.placed_code.specs.parts.PlacedModules.{ArePlaced};
ghost use Rattle.run_model.specs.declared.event.Event.TheVariants as event;
ghost use Rattle.run_model.specs.declared.thread.Thread.{Thread};
ghost use Rattle.run_model.specs.declared.thread.Turned.TheVariants as turned;
ghost use Rattle.run_model.specs.State.{some_lives, thread_at};
ghost use Rattle.run_model.specs.Turns as spec;
ghost use Rattle.run_turn.specs.parts.CallsInProgress.{AreInProgress};
ghost use Rattle.run_turn.specs.parts.Lookups.{AreKnown};
ghost use Rattle.run_turn.specs.parts.Remainder.{IsAt, Left, state_with};

use crate::calls::{Events, follow};
use crate::lookups::Lookups;
use crate::placed::{PlacedModules, Step};
use fd_base::{Bytes, Memory};
use run_model::{Event, Served, Stop, Thread, Turned};
use std::alloc::Global;

/// How a turn ends, and its events.
#[derive(Drop)]
pub struct Settled {
    pub answer: Turned,
    pub events: Events,
}

fn some_lives(threads: &[Option<Thread>]) -> bool
    ensures { result ≡ some_lives threads.now }
{
    threads.iter().any(|place| place.is_some())
}

/// Moves the calls of a thread on, if it lives.
fn follow_at(
    lookups: &mut Lookups,
    modules: &PlacedModules,
    done: Step,
    threads: &mut [Option<Thread>],
    events: &mut Events,
) -> Result<(), Memory>
    requires placed { ArePlaced modules.now.process.now modules.now.maps.now }
    requires known { AreKnown modules.now.process.now modules.now.maps.now lookups.old }
    requires calls { All AreInProgress threads.old }
    requires place { done.thread < length threads.old }
    ensures threads { (thread : Thread) → thread_at threads.old done.thread ≡ Some thread
        → OnOk result (threads.new ≡ set threads.old done.thread (Some (spec.with_calls modules.entry.now.process.now modules.entry.now.maps.now thread))) }
    ensures events { (thread : Thread) → thread_at threads.old done.thread ≡ Some thread
        → OnOk result (events.new ≡ events.old ++ spec.call_events modules.entry.now.process.now modules.entry.now.maps.now done.step done.thread thread) }
    ensures calls { OnOk result (All AreInProgress threads.new) }
    ensures known { AreKnown modules.entry.now.process.now modules.entry.now.maps.now lookups.new }
{
    match &mut threads[done.thread as usize] {
        Some(thread) => follow(lookups, modules, done, thread, events),
        None => Ok(()),
    }
}

/// After a step of a thread that goes on, with this answer and these events of its own.
fn went(
    lookups: &mut Lookups,
    modules: &PlacedModules,
    threads: &mut [Option<Thread>],
    steps: &mut u32,
    t: u32,
    own: Settled,
) -> Result<Settled, Memory>
    requires placed { ArePlaced modules.now.process.now modules.now.maps.now }
    requires known { AreKnown modules.now.process.now modules.now.maps.now lookups.old }
    requires calls { All AreInProgress threads.old }
    requires place { t < length threads.old }
    requires small { steps.old + 1 < 2 ^ 32 }
    ensures taken { (l : Loaded) (thread : Thread) → IsAt l modules.entry.now.process.now modules.entry.now.maps.now threads.old t thread
        → IfOk result (λ r. Left l threads.new steps.new r.answer r.events (spec.went (state_with l threads.old steps.old) t l thread own.events own.answer)) }
    ensures calls { OnOk result (All AreInProgress threads.new) }
    ensures known { AreKnown modules.entry.now.process.now modules.entry.now.maps.now lookups.new }
{
    let Settled { answer, mut events } = own;
    *steps += 1;
    let done = Step {
        step: *steps,
        thread: t,
    };
    follow_at(lookups, modules, done, threads, &mut events)?;
    Ok(Settled { answer, events })
}

/// After a step that ends its thread.
fn finished(
    alloc: Global,
    threads: &mut [Option<Thread>],
    steps: &mut u32,
    t: u32,
    value: u32,
) -> Result<Settled, Memory>
    requires calls { All AreInProgress threads.old }
    requires place { t < length threads.old }
    requires small { steps.old + 1 < 2 ^ 32 }
    ensures taken { (l : Loaded) → IfOk result (λ r. Left l threads.new steps.new r.answer r.events (spec.finished (state_with l threads.old steps.old) t l value)) }
    ensures calls { OnOk result (All AreInProgress threads.new) }
{
    *steps += 1;
    threads[t as usize] = None;
    let mut events = Events::new(alloc);
    events.push(Event::Done {
        step: *steps,
        thread: t,
        value,
    })?;
    if some_lives(threads) {
        return Ok(Settled {
            answer: Turned::ThreadDone,
            events,
        });
    }
    events.push(Event::End { step: *steps })?;
    Ok(Settled {
        answer: Turned::Ended,
        events,
    })
}

/// Ends all threads.
fn end_all(threads: &mut [Option<Thread>])
    ensures threads { threads.new ≡ map (λ place. None) threads.old }
    ensures calls { All AreInProgress threads.new }
{
    for i in 0..threads.len() {
        threads[i] = None;
    }
}

/// After a step that ends the process.
fn exited(
    alloc: Global,
    threads: &mut [Option<Thread>],
    steps: &mut u32,
    t: u32,
    value: u32,
) -> Result<Settled, Memory>
    requires small { steps.old + 1 < 2 ^ 32 }
    ensures taken { (l : Loaded) → IfOk result (λ r. Left l threads.new steps.new r.answer r.events (spec.exited (state_with l threads.old steps.old) t l value)) }
    ensures calls { OnOk result (All AreInProgress threads.new) }
{
    *steps += 1;
    end_all(threads);
    let mut events = Events::new(alloc);
    events.push(Event::Exit {
        step: *steps,
        thread: t,
        value,
    })?;
    Ok(Settled {
        answer: Turned::Ended,
        events,
    })
}

/// What a step that puts out bytes settles by itself.
fn wrote(alloc: Global, step: u32, thread: u32, bytes: Bytes) -> Result<Settled, Memory>
    ensures { IfOk result (λ r. r ≡ record { answer = turned.Next; events = event.Out step thread bytes ∷ [] }) }
{
    let mut events = Events::new(alloc);
    events.push(Event::Out {
        step,
        thread,
        bytes,
    })?;
    Ok(Settled {
        answer: Turned::Next,
        events,
    })
}

/// Before an instruction of a thread that stops.
pub fn stopped(alloc: Global, steps: u32, thread: u32, stop: Stop) -> Result<Settled, Memory>
    ensures { IfOk result (λ r. r ≡ record { answer = turned.Stopped stop; events = event.Stopped steps thread stop ∷ [] }) }
{
    let mut events = Events::new(alloc);
    events.push(Event::Stopped {
        step: steps,
        thread,
        stop,
    })?;
    Ok(Settled {
        answer: Turned::Stopped(stop),
        events,
    })
}

/// Does to the threads and the journal what the last instruction of thread `t` came to.
pub fn settle(
    alloc: Global,
    lookups: &mut Lookups,
    modules: &PlacedModules,
    threads: &mut [Option<Thread>],
    steps: &mut u32,
    t: u32,
    served: Served,
) -> Result<Settled, Memory>
    requires placed { ArePlaced modules.now.process.now modules.now.maps.now }
    requires known { AreKnown modules.now.process.now modules.now.maps.now lookups.old }
    requires calls { All AreInProgress threads.old }
    requires place { t < length threads.old }
    requires small { steps.old + 1 < 2 ^ 32 }
    ensures taken { (l : Loaded) (thread : Thread) → IsAt l modules.entry.now.process.now modules.entry.now.maps.now threads.old t thread
        → IfOk result (λ r. Left l threads.new steps.new r.answer r.events (spec.gone_as (state_with l threads.old steps.old) t l thread served)) }
    ensures calls { OnOk result (All AreInProgress threads.new) }
    ensures known { AreKnown modules.entry.now.process.now modules.entry.now.maps.now lookups.new }
{
    match served {
        Served::Went => {
            let own = Settled {
                answer: Turned::Next,
                events: Events::new(alloc),
            };
            went(lookups, modules, threads, steps, t, own)
        }
        Served::Yielded => {
            let own = Settled {
                answer: Turned::Yield,
                events: Events::new(alloc),
            };
            went(lookups, modules, threads, steps, t, own)
        }
        Served::Wrote(bytes) => {
            let own = wrote(alloc, *steps + 1, t, bytes)?;
            went(lookups, modules, threads, steps, t, own)
        }
        Served::Finished(value) => finished(alloc, threads, steps, t, value),
        Served::Exited(value) => exited(alloc, threads, steps, t, value),
        Served::Stopped(stop) => stopped(alloc, *steps, t, stop),
    }
}
