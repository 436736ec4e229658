//! The job in a file, and `bind JOB`: loads the program of a job and prints the slots of its process.

ghost use Rattle.std.specs.Prelude.{◌≡◌, ◌≤◌, IfOk};
ghost use Rattle.load_model.specs.Plan.{Fits};
ghost use Rattle.fdpic_cmd.specs.Ended.{Gives};
ghost use Rattle.fdpic_cmd.specs.Jobs.{BindJobMeans, OpensJob};

use crate::files::fetched;
use crate::program::program_slots;
use crate::status::{Failure, Refusal};
use fd_base::{Bytes, Name, Store};
use job_text::{JobErr, read_job};
use run_model::Job;
use std::alloc::Global;

/// The job that a file holds.
#[tactic(auto, using(crate::proofs::JobFiles::opened, crate::proofs::JobFiles::no_job, crate::proofs::JobFiles::no_file))]
pub fn open_job<S: Store>(alloc: Global, store: &mut S, name: &Name) -> Result<Job, Failure>
    ensures answer { OpensJob (S.files store.old) name.now (S.faults store.old) (S.faults store.new) result }
    ensures fits { IfOk result (λ job. Fits job.plan) }
    ensures files { S.files store.new ≡ S.files store.old }
    ensures count { S.faults store.old ≤ S.faults store.new }
{
    let bytes = fetched(alloc, store, name)?;
    match read_job(alloc, bytes.as_slice()) {
        Ok(job) => Ok(job),
        Err(JobErr::Refused(refusal)) => Err(Failure::Refused(Refusal::Job(
            refusal.line,
            refusal.kind,
        ))),
        Err(JobErr::Memory) => Err(Failure::Memory),
    }
}

/// The text of `bind JOB`.
#[tactic(auto, using(crate::proofs::JobFiles::given, crate::proofs::JobFiles::given_none))]
pub fn bind_job<S: Store>(alloc: Global, store: &mut S, name: &Name) -> Result<Bytes, Failure>
    ensures answer { Gives (BindJobMeans name.now) (S.files store.old) (S.faults store.old) (S.faults store.new) result }
    ensures files { S.files store.new ≡ S.files store.old }
    ensures count { S.faults store.old ≤ S.faults store.new }
{
    let job = open_job(alloc, store, name)?;
    Ok(program_slots(alloc, store, &job.plan, &job.program)?)
}
