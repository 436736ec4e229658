//! A process that runs.

ghost use Rattle.std.specs.Prelude.{◌≡◌, ◌<◌, ◌≤◌, ◌^◌, Some, None, IfErr, IfOk, length};
ghost use Rattle.load_model.specs.declared.error.LoadErr.TheVariants.{Refused};
ghost use Rattle.load_model.specs.declared.error.LoadRefusal.TheVariants.{NotCode};
ghost use Rattle.load_state.specs.Consistent.{IsConsistent};
ghost use Rattle.placed_code.specs.Places.{entry_point};
ghost use Rattle.run_model.specs.State as state;
ghost use Rattle.proc_run.specs.BegunProcess.{begun};
ghost use Rattle.proc_run.specs.parts.ReadyProcess.{IsRunning};

use crate::begin::{first_events, first_thread, threads_with};
use crate::taking::{pass_turns, take_turn};
use fd_base::{Memory, Sink, SinkErr, Store};
use load_model::{LoadErr, LoadRefusal};
use mod_load::{Loader, load_program};
use placed_code::consistent_are_placed;
use run_model::{Job, Thread, Turned};
use run_report::put_report;
use run_turn::{Events, Lookups, Settled};
use std::alloc::Global;
use std::marker::Model;

/// A process that runs.
#[derive(Drop)]
pub struct Process {
    alloc: Global,
    loader: Loader,
    threads: Vec<Option<Thread>>,
    steps: u32,
    limit: u32,
    /// Events that have no line yet: those before the first step.
    pending: Events,
    /// What has been looked up of the loaded modules.
    lookups: Lookups,
}

impl Model for Process {
    ghost use Rattle.std.specs.Coded.{codes};
    ghost use Rattle.func_desc.specs.Functions.{addr_map_code};
    ghost use Rattle.run_turn.specs.parts.Lookups.{AreKnown};
    ghost use Rattle.proc_run.specs.RunningProcess.{Running};

    ghost Value = { Running };

    ghost coded = { Prim.hlevel (codes, addr_map_code) };

    ghost view = { λ p. record {
      state = record { loaded = p.loader.loaded; threads = p.threads.items; steps = p.steps };
      limit = p.limit;
      pending = p.pending;
    } };

    ghost invariant = { λ p. AreKnown p.loader.loaded.modules.process p.loader.loaded.modules.maps p.lookups };
}

impl Process {
    ghost use Rattle.std.specs.Prelude.{◌≡◌, ◌<◌, ◌≤◌, ◌^◌, ◌++◌, [], true, IfErr, IfOk, OnOk, IsTrue, length};
    ghost use Rattle.load_model.specs.Plan.{Fits};
    ghost use Rattle.run_model.specs.Report.{report_of};
    ghost use Rattle.run_model.specs.State.{lives, live_from};
    ghost use Rattle.run_model.specs.Turns.{turn_of};
    ghost use Rattle.run_report.specs.parts.PieceByPiece.{Puts};
    ghost use Rattle.proc_run.specs.StartAnswers.{ExplainsStart, IsStarted};
    ghost use Rattle.proc_run.specs.parts.QuietRuns.{HasPassed, Passes};
    ghost use Rattle.proc_run.specs.parts.ReadyProcess.{IsReady, IsRunning};
    ghost use Rattle.proc_run.specs.parts.Turns.{GoesOn, PutsTurn, TurnAnswers, with_lines};

    /// Loads the program of a job, with every slot bound, and begins its process. That it has an entry point is tested
    /// after all else. A job whose slots are to be bound at their first calls is refused before any file is fetched.
    pub fn start<S: Store>(alloc: Global, job: &Job, store: &mut S) -> Result<Process, LoadErr>
        requires { Fits job.now.plan }
        ensures started { IfOk result (IsStarted job.now (S.files store.old)) }
        ensures running { IfOk result IsRunning }
        ensures error { IfErr result (ExplainsStart job.now (S.files store.old) (S.faults store.old) (S.faults store.new)) }
        ensures untouched { IsTrue job.now.lazy → store.new ≡ store.old }
        ensures files { S.files store.new ≡ S.files store.old }
        ensures count { S.faults store.old ≤ S.faults store.new }
    {
        if job.lazy {
            let program = job.program.copy(alloc)?;
            return Err(LoadErr::Refused(LoadRefusal::NotBuilt(program)));
        }
        let loader = load_program(alloc, &job.plan, &job.program, store)?;
        let entry = entry_of(&loader)?;
        Ok(begin(alloc, job, loader, entry)?)
    }

    /// Whether a thread lives.
    pub fn lives(&self, thread: u32) -> bool
        ensures { result ≡ lives self.now.state.threads thread }
    {
        lives(self.threads.as_slice(), thread)
    }

    /// Runs one instruction of a live thread, and puts the lines of its events. After an answer other than Next, Yield and
    /// ThreadDone no further turn may be taken. No service opens a module yet, so that the store is not asked.
    pub fn turn<S: Store, O: Sink>(&mut self, thread: u32, store: &mut S, out: &mut O) -> Turned
        requires running { IsRunning self.old }
        requires lives { lives self.old.state.threads thread ≡ true }
        ensures answer { TurnAnswers result self.old thread self.new (O.bytes out.old) (O.bytes out.new) (O.faults out.old) (O.faults out.new) }
        ensures running { GoesOn result (IsRunning self.new) }
        ensures untouched { store.new ≡ store.old }
        ensures count { O.faults out.old ≤ O.faults out.new }
    {
        let _ = store;
        self.one_turn(thread, out)
    }

    /// One instruction of a live thread, and the lines of its events.
    pub(crate) fn one_turn<O: Sink>(&mut self, thread: u32, out: &mut O) -> Turned
        requires running { IsRunning self.old }
        requires lives { lives self.old.state.threads thread ≡ true }
        ensures answer { TurnAnswers result self.old thread self.new (O.bytes out.old) (O.bytes out.new) (O.faults out.old) (O.faults out.new) }
        ensures running { GoesOn result (IsRunning self.new) }
        ensures count { O.faults out.old ≤ O.faults out.new }
    {
        match self.put_turn(thread, out) {
            Ok(answer) => answer,
            Err(SinkErr::Failed) => Turned::SinkFault,
            Err(SinkErr::Memory) => Turned::Memory,
        }
    }

    /// The most steps that it takes.
    pub(crate) fn limit(&self) -> u32
        ensures { result ≡ self.now.limit }
    {
        self.limit
    }

    /// The first live thread from a number on, in cyclic order.
    pub(crate) fn live_from(&self, thread: u32) -> Option<u32>
        requires { length self.now.state.threads < 2 ^ 32 }
        ensures { result ≡ live_from self.now.state.threads thread }
    {
        live_from(self.threads.as_slice(), thread)
    }

    /// Puts the lines of the events that have none.
    pub(crate) fn report<O: Sink>(&mut self, out: &mut O) -> Result<(), SinkErr>
        ensures lines { Puts (O.bytes out.old) (O.bytes out.new) (report_of self.old.pending) (O.faults out.old) (O.faults out.new) result }
        ensures rest { OnOk result (self.new ≡ with_lines self.old self.old.state) }
        ensures count { O.faults out.old ≤ O.faults out.new }
    {
        put_report(self.alloc, self.pending.as_slice(), out)?;
        self.pending.truncate(0);
        Ok(())
    }

    /// Takes a turn without putting its lines.
    fn take(&mut self, thread: u32) -> Result<Settled, Memory>
        requires running { IsRunning self.old }
        requires lives { lives self.old.state.threads thread ≡ true }
        ensures taken { IfOk result (λ r. turn_of self.old.limit self.old.state thread
            ≡ record { answer = r.answer; state = self.new.state; events = r.events }) }
        ensures rest { OnOk result (self.new ≡ record self.old { state = self.new.state }) }
        ensures running { OnOk result (IsRunning self.new) }
    {
        take_turn(
            self.alloc,
            &mut self.lookups,
            &mut self.loader,
            self.threads.as_mut_slice(),
            &mut self.steps,
            self.limit,
            thread,
        )
    }

    /// Takes turns of a process that runs, one at least, and as many as are left at most, up to one of which something is to be
    /// told. None where there is no such turn.
    fn pass(&mut self, thread: u32, left: &mut u32) -> Result<Option<Settled>, Memory>
        requires running { IsRunning self.old }
        requires lives { lives self.old.state.threads thread ≡ true }
        requires some { 0 < left.old }
        ensures taken { IfOk result (λ r. Passes self.old.limit thread r left.old left.new self.old.state self.new.state) }
        ensures rest { OnOk result (self.new ≡ record self.old { state = self.new.state }) }
        ensures running { OnOk result (IsRunning self.new) }
    {
        pass_turns(
            self.alloc,
            &mut self.lookups,
            &mut self.loader,
            self.threads.as_mut_slice(),
            &mut self.steps,
            self.limit,
            thread,
            left,
        )
    }

    /// Takes turns of a thread, as many as are left at most, until there is something to be told. Its events then have no
    /// line yet.
    pub(crate) fn pass_quietly(&mut self, thread: u32, left: &mut u32) -> Result<Turned, Memory>
        requires ready { IsReady self.old.limit self.old }
        requires lives { lives self.old.state.threads thread ≡ true }
        requires some { 0 < left.old }
        ensures passed { IfOk result (λ answer. HasPassed self.old.limit thread self.old.state left.old self.new.state left.new answer self.new.pending) }
        ensures running { OnOk result (IsRunning self.new) }
        ensures limit { OnOk result (self.new.limit ≡ self.old.limit) }
    {
        while *left > 0 {
            let passed = self.pass(thread, left)?;
            match passed {
                None => {}
                Some(settled) => {
                    self.pending = settled.events;
                    return Ok(settled.answer);
                }
            }
        }
        Ok(Turned::Next)
    }

    /// Takes a turn and puts its lines, behind those of the events that have none.
    fn put_turn<O: Sink>(&mut self, thread: u32, out: &mut O) -> Result<Turned, SinkErr>
        requires running { IsRunning self.old }
        requires lives { lives self.old.state.threads thread ≡ true }
        ensures answer { PutsTurn self.old thread self.new (O.bytes out.old) (O.bytes out.new) (O.faults out.old) (O.faults out.new) result }
        ensures running { OnOk result (IsRunning self.new) }
        ensures count { O.faults out.old ≤ O.faults out.new }
    {
        self.report(out)?;
        let settled = self.take(thread)?;
        put_report(self.alloc, settled.events.as_slice(), out)?;
        Ok(settled.answer)
    }
}

/// The placed entry point of the program.
fn entry_of(loader: &Loader) -> Result<u32, LoadErr>
    requires { IsConsistent loader.now.loaded }
    ensures entry { IfOk result (λ entry. entry_point loader.now.loaded.modules.process loader.now.loaded.modules.maps 0 ≡ Some entry) }
    ensures none { IfErr result (λ e. (e ≡ Refused (NotCode 0 None)) × (entry_point loader.now.loaded.modules.process loader.now.loaded.modules.maps 0 ≡ None)) }
{
    match loader.entry_point(0) {
        Some(entry) => Ok(entry),
        None => Err(LoadErr::Refused(LoadRefusal::NotCode(0, None))),
    }
}

/// The process of a job over what is loaded, with its first thread at an entry point.
fn begin(alloc: Global, job: &Job, loader: Loader, entry: u32) -> Result<Process, Memory>
    requires consistent { IsConsistent loader.loaded }
    requires plan { loader.loaded.modules.plan ≡ job.now.plan }
    ensures begins { IfOk result (λ p. p ≡ begun loader.loaded entry job.now.steps) }
    ensures running { IfOk result IsRunning }
{
    loader.whole();
    consistent_are_placed();
    let mut lookups = Lookups::new(alloc)?;
    let thread = first_thread(
        &mut lookups,
        loader.process(),
        loader.maps(),
        job.plan.memory,
        entry,
    );
    let pending = first_events(alloc, loader.process(), &thread)?;
    let threads = threads_with(alloc, job.plan.threads, thread)?;
    Ok(Process {
        alloc,
        loader,
        threads,
        steps: 0,
        limit: job.steps,
        pending,
        lookups,
    })
}

fn lives(threads: &[Option<Thread>], t: u32) -> bool
    ensures { result ≡ state.lives threads.now t }
{
    match threads.get(t as usize) {
        Some(place) => place.is_some(),
        None => false,
    }
}

/// The first live thread from a number on, in cyclic order.
fn live_from(threads: &[Option<Thread>], t: u32) -> Option<u32>
    requires { length threads.now < 2 ^ 32 }
    ensures { result ≡ state.live_from threads.now t }
{
    let count = threads.len() as u64;
    for i in 0..count {
        let number = ((t as u64 + i) % count) as u32;
        if lives(threads, number) {
            return Some(number);
        }
    }
    None
}
