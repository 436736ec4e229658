//! Steps of which nothing is to be told.

ghost use Rattle.std.specs.Prelude.{◌≡◌, ℕ, suc, ◌+◌, ◌<◌, ◌≤◌, min, true, All, List, Some, IfOk, length};
ghost use Rattle.guest_mem.specs.parts.Kept.{Keeps};
ghost use Rattle.load_map.specs.declared.entry.MapEntry.{MapEntry};
ghost use Rattle.load_model.specs.declared.module.SymbolicProcess.{SymbolicProcess};
ghost use Rattle.load_state.specs.Loaded.{Loaded};
ghost use Rattle.run_turn.specs.parts.CallsInProgress.{BeganInTurn};
ghost use Rattle.run_turn.specs.parts.Lookups.{AreClear, AreKnown};
ghost use Rattle.placed_code.specs.parts.PlacedModules.{ArePlaced};
ghost use Rattle.run_model.specs.declared.thread.Thread.{Thread};
ghost use Rattle.run_model.specs.State.{thread_at};
ghost use Rattle.run_model.specs.Turns as spec;
ghost use Rattle.run_turn.specs.parts.QuietCalls.{HasRoom, NoneComplete, calls_after};
ghost use Rattle.run_turn.specs.parts.QuietSteps.{HasObeyedOn, HasWalked, Machine, machine_of, thread_on};
ghost use Rattle.run_turn.specs.parts.QuietTurns.{IsApart, quiet};
ghost use Rattle.run_turn.specs.parts.Remainder.{IsAt, state_with};

use crate::clear::ClearPlaces;
use crate::instruction::come_to;
use crate::lookups::Lookups;
use crate::placed::PlacedModules;
use a32_machine::{Cpu, DecodedWords, StepEnd, step_decoded};
use fd_base::Memory;
use guest_mem::Guest;
use run_model::{Call, Calls, LONGEST_CALL, Served, Thread};
use std::alloc::Global;

/// A walk of steps of which nothing is to be told.
#[derive(Clone, Copy)]
pub(crate) struct Walk {
    /// How many there are.
    pub quiet: u32,
    /// How one more instruction has ended, of which something may be told. None where there is none.
    pub last: Option<StepEnd>,
}

/// Turns of a thread that are done.
#[derive(Drop)]
pub struct Passed {
    /// How many there are of which nothing is to be told.
    pub quiet: u32,
    /// What the instruction behind them came to. None where there is none.
    pub last: Option<Served>,
}

/// Obeys instructions as long as they go on to addresses that are remembered as clear, at most so many. One that calls the
/// supervisor leaves the cpu before it.
#[inline(never)]
fn walk_on(
    clear: &ClearPlaces,
    words: &mut DecodedWords,
    cpu: &mut Cpu,
    guest: &mut Guest,
    most: u32,
) -> Walk
    ensures walked { (p : SymbolicProcess) (maps : List (List MapEntry)) → AreClear p maps clear.now
        → HasWalked p maps most (machine_of cpu.old guest.old) (machine_of cpu.new guest.new) result }
    ensures keeps { Keeps guest.old guest.new }
{
    for quiet in 0..most {
        let pc = cpu.r[15];
        match step_decoded(words, cpu, guest) {
            StepEnd::Next => {
                if !clear.contains(cpu.r[15]) {
                    return Walk {
                        quiet,
                        last: Some(StepEnd::Next),
                    };
                }
            }
            StepEnd::Service(number) => {
                cpu.r[15] = pc;
                return Walk {
                    quiet,
                    last: Some(StepEnd::Service(number)),
                };
            }
            StepEnd::Stop(why) => {
                return Walk {
                    quiet,
                    last: Some(StepEnd::Stop(why)),
                };
            }
        }
    }
    Walk {
        quiet: most,
        last: None,
    }
}

/// How many further steps of their thread complete none of these calls, at most so many.
fn room_of(calls: &[Call], most: u32) -> u32
    ensures most { result ≤ most }
    ensures within { All (HasRoom result) calls.now }
{
    let mut room = most;
    for call in calls {
        let left = call
            .length
            .min(LONGEST_CALL as u32)
            .saturating_sub(call.done);
        room = room.min(left.saturating_sub(1));
    }
    room
}

/// Counts so many more steps for calls, none of which are complete then.
fn count_steps(calls: &mut Calls, steps: u32)
    requires { All (HasRoom steps) calls.old }
    ensures { calls.new ≡ calls_after steps calls.old }
{
    if calls.is_empty() {
        return;
    }
    for _ in 0..steps {
        calls.advance();
    }
}

/// How many steps a walk may take so that one behind so many is the last.
fn ahead_of(room: u32, most: u32) -> u32
    requires { room ≤ most }
    ensures { result ≡ min (room + 1) most }
{
    if room < most { room + 1 } else { most }
}

/// A walk without the steps behind so many: the first of them may complete calls.
fn cut(walk: Walk, room: u32) -> Walk
    ensures walked { (p : SymbolicProcess) (maps : List (List MapEntry)) (most : ℕ) (old new : Machine) → room ≤ most → HasWalked p maps (min (room + 1) most) old new walk
        → HasWalked p maps most old new result }
    ensures quiet { result.quiet ≤ room }
{
    if walk.quiet <= room {
        return walk;
    }
    Walk {
        quiet: room,
        last: Some(StepEnd::Next),
    }
}

/// The same of a thread, whose calls in progress count the steps.
fn walk_with(lookups: &mut Lookups, thread: &mut Thread, guest: &mut Guest, most: u32) -> Walk
    ensures walked { (p : SymbolicProcess) (maps : List (List MapEntry)) → AreKnown p maps lookups.old
        → HasWalked p maps most (machine_of thread.old.cpu guest.old) (machine_of thread.new.cpu guest.new) result }
    ensures stay { NoneComplete result.quiet thread.old.calls }
    ensures rest { thread.new ≡ thread_on result.quiet thread.old thread.new.cpu }
    ensures keeps { Keeps guest.old guest.new }
    ensures known { (p : SymbolicProcess) (maps : List (List MapEntry)) → AreKnown p maps lookups.old → AreKnown p maps lookups.new }
{
    let room = room_of(thread.calls.as_slice(), most);
    let ahead = ahead_of(room, most);
    let walk = walk_on(
        &lookups.clear,
        &mut lookups.words,
        &mut thread.cpu,
        guest,
        ahead,
    );
    let walk = cut(walk, room);
    count_steps(&mut thread.calls, walk.quiet);
    walk
}

/// Obeys instructions of a thread, at most so many, up to one of which something may be told.
pub fn obey_on(
    alloc: Global,
    lookups: &mut Lookups,
    thread: &mut Thread,
    guest: &mut Guest,
    most: u32,
) -> Result<Passed, Memory>
    ensures done { (p : SymbolicProcess) (maps : List (List MapEntry)) → AreKnown p maps lookups.old
        → IfOk result (λ passed. HasObeyedOn p maps most thread.old guest.old passed thread.new guest.new) }
    ensures calls { BeganInTurn thread.old.calls → BeganInTurn thread.new.calls }
    ensures keeps { Keeps guest.old guest.new }
    ensures known { (p : SymbolicProcess) (maps : List (List MapEntry)) → AreKnown p maps lookups.old → AreKnown p maps lookups.new }
{
    let walk = walk_with(lookups, thread, guest, most);
    let Some(end) = walk.last else {
        return Ok(Passed {
            quiet: walk.quiet,
            last: None,
        });
    };
    let served = come_to(alloc, end, thread, guest)?;
    Ok(Passed {
        quiet: walk.quiet,
        last: Some(served),
    })
}

/// Whether a thread has no calls, and stands at no entry.
fn is_apart(modules: &PlacedModules, lookups: &mut Lookups, thread: &Thread) -> bool
    requires placed { ArePlaced modules.now.process.now modules.now.maps.now }
    requires known { AreKnown modules.now.process.now modules.now.maps.now lookups.old }
    ensures apart { result ≡ true → IsApart modules.entry.now.process.now modules.entry.now.maps.now thread.now }
    ensures known { AreKnown modules.entry.now.process.now modules.entry.now.maps.now lookups.new }
{
    if !thread.calls.is_empty() {
        return false;
    }
    lookups
        .entry(modules.process, modules.maps, thread.cpu.r[15])
        .is_none()
}

/// The same of the thread of a number.
fn is_apart_at(
    modules: &PlacedModules,
    lookups: &mut Lookups,
    threads: &[Option<Thread>],
    t: u32,
) -> bool
    requires placed { ArePlaced modules.now.process.now modules.now.maps.now }
    requires known { AreKnown modules.now.process.now modules.now.maps.now lookups.old }
    requires place { t < length threads.now }
    ensures apart { result ≡ true → (thread : Thread) → thread_at threads.now t ≡ Some thread
        → IsApart modules.entry.now.process.now modules.entry.now.maps.now thread }
    ensures known { AreKnown modules.entry.now.process.now modules.entry.now.maps.now lookups.new }
{
    match &threads[t as usize] {
        Some(thread) => is_apart(modules, lookups, thread),
        None => false,
    }
}

/// Whether the last instruction of thread `t`, which came to this, is a step of which nothing is to be told.
pub fn is_quiet(
    modules: &PlacedModules,
    lookups: &mut Lookups,
    threads: &[Option<Thread>],
    t: u32,
    served: &Served,
) -> bool
    requires placed { ArePlaced modules.now.process.now modules.now.maps.now }
    requires known { AreKnown modules.now.process.now modules.now.maps.now lookups.old }
    requires place { t < length threads.now }
    ensures quiet { result ≡ true → (l : Loaded) (thread : Thread) (steps : ℕ)
        → IsAt l modules.entry.now.process.now modules.entry.now.maps.now threads.now t thread
        → spec.gone_as (state_with l threads.now steps) t l thread served.now ≡ quiet (state_with l threads.now (suc steps)) }
    ensures known { AreKnown modules.entry.now.process.now modules.entry.now.maps.now lookups.new }
{
    match served {
        Served::Went => is_apart_at(modules, lookups, threads, t),
        _ => false,
    }
}
