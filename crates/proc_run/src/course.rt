//! The run of a job to its end.

ghost use Rattle.std.specs.Prelude.{◌≡◌, ℕ, ◌≤◌, List, Option, IfOk};
ghost use Rattle.fd_base.specs.Grown.{Grew};
ghost use Rattle.load_model.specs.Plan.{Fits};
ghost use Rattle.run_model.specs.declared.event.Event.{Event};
ghost use Rattle.run_model.specs.Courses as spec;
ghost use Rattle.run_model.specs.Report.{report_of};
ghost use Rattle.proc_run.specs.RunEnds.{RunEnds};
ghost use Rattle.proc_run.specs.RunParts.{DoesPart, after_step};
ghost use Rattle.proc_run.specs.parts.QuietRuns.{AnswersAs};
ghost use Rattle.proc_run.specs.parts.Turns.{IsOwn};

use crate::end::{Going, RunEnd};
use crate::process::Process;
use fd_base::{Sink, SinkErr, Store};
use load_model::LoadErr;
use run_model::{Job, Turn, Turned};
use std::alloc::Global;

impl Process {
    ghost use Rattle.std.specs.Prelude.{◌≡◌, ℕ, suc, ◌+◌, ◌<◌, ◌≤◌, true, Some, IfOk, OnOk};
    ghost use Rattle.run_model.specs.Courses as spec;
    ghost use Rattle.run_model.specs.State.{State, lives, live_from};
    ghost use Rattle.run_model.specs.Turns.{turn_of};
    ghost use Rattle.proc_run.specs.RunParts.{DoesPart, EndsAs, GoesSame, after_step, schedule_of};
    ghost use Rattle.proc_run.specs.parts.QuietRuns.{AnswersAs, IsChain};
    ghost use Rattle.proc_run.specs.parts.ReadyProcess.{IsReady, IsRunning};
    ghost use Rattle.proc_run.specs.parts.Turns.{IsOwn, with_lines};

    /// One step of a live thread, and who is to go on.
    fn step<O: Sink>(&mut self, thread: u32, out: &mut O) -> Result<Going, RunEnd>
        requires ready { IsReady self.old.limit self.old }
        requires lives { lives self.old.state.threads thread ≡ true }
        ensures part { (same others : State → spec.Course) → DoesPart
            (spec.after_turn (turn_of self.old.limit self.old.state thread) same others)
            (after_step (same self.new.state) (others self.new.state))
            (O.bytes out.old) (O.bytes out.new) (O.faults out.old) (O.faults out.new) result }
        ensures ready { OnOk result (IsReady self.old.limit self.new) }
        ensures steps { OnOk result ((self.old.state.steps < self.old.limit) × (self.new.state.steps ≡ suc self.old.state.steps)) }
        ensures lives { IfOk result (λ going. GoesSame going (lives self.new.state.threads thread ≡ true)) }
        ensures count { O.faults out.old ≤ O.faults out.new }
    {
        match self.one_turn(thread, out) {
            Turned::Next => Ok(Going::Same),
            Turned::Yield => Ok(Going::Others),
            Turned::ThreadDone => Ok(Going::Others),
            Turned::Ended => Err(RunEnd::Ended),
            Turned::Stopped(stop) => Err(RunEnd::Stopped(stop)),
            Turned::StoreFault => Err(RunEnd::StoreFault),
            Turned::SinkFault => Err(RunEnd::SinkFault),
            Turned::Memory => Err(RunEnd::Memory),
        }
    }

    /// Puts the lines of a turn that had this answer, and who is to go on.
    fn tell<O: Sink>(&mut self, answer: Turned, out: &mut O) -> Result<Going, RunEnd>
        requires own { IsOwn answer }
        ensures part { (whole same others : spec.Course) → whole ≡ spec.followed answer self.old.pending same others
            → DoesPart whole (after_step same others) (O.bytes out.old) (O.bytes out.new) (O.faults out.old) (O.faults out.new) result }
        ensures rest { OnOk result (self.new ≡ with_lines self.old self.old.state) }
        ensures goes { IfOk result (λ going. AnswersAs answer going) }
        ensures count { O.faults out.old ≤ O.faults out.new }
    {
        match self.report(out) {
            Ok(()) => going_by(answer),
            Err(SinkErr::Failed) => Err(RunEnd::SinkFault),
            Err(SinkErr::Memory) => Err(RunEnd::Memory),
        }
    }

    /// Steps of a live thread, as many as are left at most, up to one of which something is told; and who is to go on.
    fn step_on<O: Sink>(
        &mut self,
        thread: u32,
        left: &mut u32,
        out: &mut O,
    ) -> Result<Going, RunEnd>
        requires ready { IsReady self.old.limit self.old }
        requires lives { lives self.old.state.threads thread ≡ true }
        requires some { 0 < left.old }
        ensures part { (same others : ℕ → State → spec.Course) → IsChain self.old.limit thread same others → DoesPart
            (same left.old self.old.state)
            (after_step (same left.new self.new.state) (others left.new self.new.state))
            (O.bytes out.old) (O.bytes out.new) (O.faults out.old) (O.faults out.new) result }
        ensures ready { OnOk result (IsReady self.old.limit self.new) }
        ensures fewer { OnOk result (left.new < left.old) }
        ensures steps { OnOk result (self.new.state.steps + left.new ≡ self.old.state.steps + left.old) }
        ensures lives { IfOk result (λ going. GoesSame going (lives self.new.state.threads thread ≡ true)) }
        ensures count { O.faults out.old ≤ O.faults out.new }
    {
        match self.pass_quietly(thread, left) {
            Ok(answer) => self.tell(answer, out),
            Err(_) => Err(RunEnd::Memory),
        }
    }

    /// A turn of a schedule: its thread runs for up to its number of steps. A thread that doesn't live does nothing.
    fn run_turn<O: Sink>(&mut self, turn: &Turn, out: &mut O) -> Result<(), RunEnd>
        requires { IsReady self.old.limit self.old }
        ensures part { (rest : State → spec.Course) → DoesPart
            (spec.turns_of self.old.limit turn.now.thread rest turn.now.count self.old.state)
            (λ _. rest self.new.state)
            (O.bytes out.old) (O.bytes out.new) (O.faults out.old) (O.faults out.new) result }
        ensures ready { OnOk result (IsReady self.old.limit self.new) }
        ensures count { O.faults out.old ≤ O.faults out.new }
    {
        let mut left = turn.count;
        while left > 0 {
            if !self.lives(turn.thread) {
                return Ok(());
            }
            match self.step_on(turn.thread, &mut left, out) {
                Ok(Going::Same) => {}
                Ok(Going::Others) => return Ok(()),
                Err(end) => return Err(end),
            }
        }
        Ok(())
    }

    /// The turns of a schedule.
    fn run_schedule<O: Sink>(&mut self, turns: &[Turn], out: &mut O) -> Result<(), RunEnd>
        requires { IsReady self.old.limit self.old }
        ensures part { DoesPart
            (spec.course_of self.old.limit (schedule_of turns.now) self.old.state)
            (λ _. spec.unscheduled self.old.limit self.new.state)
            (O.bytes out.old) (O.bytes out.new) (O.faults out.old) (O.faults out.new) result }
        ensures ready { OnOk result (IsReady self.old.limit self.new) }
        ensures count { O.faults out.old ≤ O.faults out.new }
    {
        for turn in turns {
            match self.run_turn(turn, out) {
                Ok(()) => {}
                Err(end) => return Err(end),
            }
        }
        Ok(())
    }

    /// Steps of a live thread that no schedule names, as many as are left at most, and the thread that goes on.
    fn step_freely<O: Sink>(
        &mut self,
        thread: u32,
        left: &mut u32,
        out: &mut O,
    ) -> Result<u32, RunEnd>
        requires ready { IsReady self.old.limit self.old }
        requires lives { lives self.old.state.threads thread ≡ true }
        requires some { 0 < left.old }
        ensures part { DoesPart
            (spec.freely self.old.limit left.old (Some thread) self.old.state)
            (λ next. spec.freely self.old.limit left.new (Some next) self.new.state)
            (O.bytes out.old) (O.bytes out.new) (O.faults out.old) (O.faults out.new) result }
        ensures ready { OnOk result (IsReady self.old.limit self.new) }
        ensures fewer { OnOk result (left.new < left.old) }
        ensures steps { OnOk result (self.new.state.steps + left.new ≡ self.old.state.steps + left.old) }
        ensures lives { IfOk result (λ next. lives self.new.state.threads next ≡ true) }
        ensures count { O.faults out.old ≤ O.faults out.new }
    {
        match self.step_on(thread, left, out) {
            Ok(Going::Same) => Ok(thread),
            Ok(Going::Others) => match self.live_from(thread + 1) {
                Some(next) => Ok(next),
                None => Err(RunEnd::Ended),
            },
            Err(end) => Err(end),
        }
    }

    /// The step that the limit leaves no more.
    fn step_at_limit<O: Sink>(&mut self, thread: u32, out: &mut O) -> RunEnd
        requires ready { IsReady self.old.limit self.old }
        requires lives { lives self.old.state.threads thread ≡ true }
        requires limit { self.old.limit ≤ self.old.state.steps }
        ensures part { EndsAs result (spec.freely self.old.limit 0 (Some thread) self.old.state)
            (O.bytes out.old) (O.bytes out.new) (O.faults out.old) (O.faults out.new) }
        ensures count { O.faults out.old ≤ O.faults out.new }
    {
        match self.step(thread, out) {
            Ok(_) => unreachable!(),
            Err(end) => end,
        }
    }

    /// Live threads in cyclic order, from this one on, to the end.
    fn run_freely<O: Sink>(&mut self, first: u32, out: &mut O) -> RunEnd
        requires ready { IsReady self.old.limit self.old }
        requires lives { lives self.old.state.threads first ≡ true }
        ensures part { EndsAs result (spec.freely self.old.limit self.old.limit (Some first) self.old.state)
            (O.bytes out.old) (O.bytes out.new) (O.faults out.old) (O.faults out.new) }
        ensures count { O.faults out.old ≤ O.faults out.new }
    {
        let mut thread = first;
        let mut left = self.limit();
        while left > 0 {
            match self.step_freely(thread, &mut left, out) {
                Ok(next) => thread = next,
                Err(end) => return end,
            }
        }
        self.step_at_limit(thread, out)
    }

    /// All that follows the schedule.
    fn run_unscheduled<O: Sink>(&mut self, out: &mut O) -> RunEnd
        requires { IsReady self.old.limit self.old }
        ensures part { EndsAs result (spec.unscheduled self.old.limit self.old.state)
            (O.bytes out.old) (O.bytes out.new) (O.faults out.old) (O.faults out.new) }
        ensures count { O.faults out.old ≤ O.faults out.new }
    {
        match self.live_from(0) {
            Some(first) => self.run_freely(first, out),
            None => RunEnd::Ended,
        }
    }

    /// The course of a process, by a schedule.
    fn run_course<O: Sink>(&mut self, turns: &[Turn], out: &mut O) -> RunEnd
        requires { IsReady self.old.limit self.old }
        ensures course { EndsAs result (spec.course_of self.old.limit (schedule_of turns.now) self.old.state)
            (O.bytes out.old) (O.bytes out.new) (O.faults out.old) (O.faults out.new) }
        ensures count { O.faults out.old ≤ O.faults out.new }
    {
        match self.run_schedule(turns, out) {
            Ok(()) => self.run_unscheduled(out),
            Err(end) => end,
        }
    }

    /// The lines of the events that have none, and then the course of a process.
    fn run<O: Sink>(&mut self, turns: &[Turn], out: &mut O) -> RunEnd
        requires { IsRunning self.old }
        ensures course { EndsAs result (spec.before self.old.pending (spec.course_of self.old.limit (schedule_of turns.now) self.old.state))
            (O.bytes out.old) (O.bytes out.new) (O.faults out.old) (O.faults out.new) }
        ensures count { O.faults out.old ≤ O.faults out.new }
    {
        match self.report(out) {
            Ok(()) => self.run_course(turns, out),
            Err(SinkErr::Failed) => RunEnd::SinkFault,
            Err(SinkErr::Memory) => RunEnd::Memory,
        }
    }
}

/// Who goes on after an answer.
fn going_by(answer: Turned) -> Result<Going, RunEnd>
    requires { IsOwn answer }
    ensures part { (whole same others : spec.Course) (events : List Event) (out later : Option (List ℕ)) (old new : ℕ)
        → whole ≡ spec.followed answer events same others → Grew out later (report_of events)
        → DoesPart whole (after_step same others) out later old new result }
    ensures goes { IfOk result (λ going. AnswersAs answer going) }
{
    match answer {
        Turned::Next => Ok(Going::Same),
        Turned::Yield => Ok(Going::Others),
        Turned::ThreadDone => Ok(Going::Others),
        Turned::Ended => Err(RunEnd::Ended),
        Turned::Stopped(stop) => Err(RunEnd::Stopped(stop)),
        Turned::StoreFault | Turned::SinkFault | Turned::Memory => unreachable!(),
    }
}

/// Runs a job: loads its program, lets its threads run by its schedule and then in cyclic order, to the end, and puts the
/// line of each event. Where the program isn't loaded nothing is put.
pub fn run<S: Store, O: Sink>(alloc: Global, job: &Job, store: &mut S, out: &mut O) -> RunEnd
    requires { Fits job.now.plan }
    ensures ends { RunEnds result job.now (S.files store.old) (S.faults store.old) (S.faults store.new)
        (O.bytes out.old) (O.bytes out.new) (O.faults out.old) (O.faults out.new) }
    ensures files { S.files store.new ≡ S.files store.old }
    ensures store_count { S.faults store.old ≤ S.faults store.new }
    ensures out_count { O.faults out.old ≤ O.faults out.new }
{
    match Process::start(alloc, job, store) {
        Ok(mut process) => process.run(job.turns.as_slice(), out),
        Err(LoadErr::Refused(refusal)) => RunEnd::Refused(refusal),
        Err(LoadErr::StoreFault) => RunEnd::StoreFault,
        Err(LoadErr::Memory) => RunEnd::Memory,
    }
}
