//! `run JOB`: runs the job in a file, and puts the report of the run.

ghost use Rattle.std.specs.Prelude.{◌≡◌, ◌≤◌, false};
ghost use Rattle.fdpic_cmd.specs.Ended.{outside, Ends};
ghost use Rattle.fdpic_cmd.specs.Run as spec;

use crate::job::open_job;
use crate::status::{Refusal, Status, failed};
use fd_base::{Name, Sink, Store};
use proc_run::{RunEnd, run};
use std::alloc::Global;

/// The status that the end of a run comes to.
fn status_of(end: RunEnd) -> Status
    ensures { result ≡ spec.status_of end }
{
    match end {
        RunEnd::Ended => Status::Done,
        RunEnd::Stopped(stop) => Status::Stopped(stop),
        RunEnd::Refused(refusal) => Status::Refused(Refusal::Load(refusal)),
        RunEnd::StoreFault => Status::StoreFault,
        RunEnd::SinkFault => Status::SinkFault,
        RunEnd::Memory => Status::Memory,
    }
}

/// Runs the job in a file, and puts the report of the run, line by line. Where there is no job, or its run doesn't start,
/// nothing is put.
pub fn run_job<S: Store, O: Sink>(
    alloc: Global,
    store: &mut S,
    job_file: &Name,
    out: &mut O,
) -> Status
    ensures ends { let old = outside (S.files store.old) (S.faults store.old) (O.bytes out.old) (O.faults out.old) in
        let new = outside (S.files store.new) (S.faults store.new) (O.bytes out.new) (O.faults out.new) in
        Ends false (spec.RunMeans job_file.now) old new result }
    ensures stays { result ≡ Status.StoreFault → O.bytes out.new ≡ O.bytes out.old }
    ensures files { S.files store.new ≡ S.files store.old }
    ensures store_count { S.faults store.old ≤ S.faults store.new }
    ensures out_count { O.faults out.old ≤ O.faults out.new }
{
    match open_job(alloc, store, job_file) {
        Ok(job) => status_of(run(alloc, &job, store, out)),
        Err(failure) => failed(failure),
    }
}
