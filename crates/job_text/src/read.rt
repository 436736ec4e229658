//! The reader: the first line, the lines behind it in order, and then the job that they make.

ghost use Rattle.std.specs.Prelude.{◌≡◌, ◌+◌, ◌-◌, ◌^◌, ◌<◌, ◌++◌, [], ◌∷◌, List, ℕ, length, drop, true, false, OnOk, IfErr, IfOk, MatchOption, None};
ghost use Rattle.load_model.specs.Plan.{Fits};
ghost use Rattle.run_model.specs.declared.job.Job.{Job};
ghost use Rattle.job_text.specs.Format.{first_format};
ghost use Rattle.job_text.specs.declared.refusal.JobRefusal.{JobRefusal};
ghost use Rattle.job_text.specs.declared.refusal.JobErr.TheVariants.{Refused};
ghost use Rattle.job_text.specs.parts.Answers.{AreBehindFirst, IsOf, IsRefusal, Answers, IsAnswer};
ghost use Rattle.job_text.specs.Fields.{fields_of};
ghost use Rattle.job_text.specs.Statement.{statement_of};
ghost use Rattle.job_text.specs.Job as spec;
ghost use Rattle.job_text.specs.parts.Sound.{IsSound};
ghost use Rattle.fd_base.specs.Lines.{lines_of};

use crate::fields::Fields;
use crate::given::Given;
use crate::limits::{FORMAT_1, Limits};
use crate::refusal::{JobErr, JobKind, JobRefusal, LineErr};
use crate::statement::statement_of;
use fd_base::Lines;
use run_model::Job;
use std::alloc::Global;

/// The refusal of this kind at the line with this number.
fn refused(line: u32, kind: JobKind) -> JobErr
    ensures { result ≡ Refused (spec.refused_at line kind) }
{
    JobErr::Refused(JobRefusal { line, kind })
}

/// Whether a line is the first one of a job.
fn is_header(line: &[u8]) -> bool
    ensures { result ≡ spec.is_header (fields_of line.now) }
{
    let mut fields = Fields::new(line);
    let Some(word) = fields.next() else {
        return false;
    };
    let Some(format) = fields.next() else {
        return false;
    };
    fields.next().is_none() && word == b"fdpic-job".as_slice() && format == b"1".as_slice()
}

/// The lines behind the first one, where that is the first line of a job.
fn lines_behind<'a>(bytes: &'a [u8]) -> Option<Lines<'a>>
    requires { length bytes.now < 2 ^ 32 - 1 }
    ensures { MatchOption result (spec.is_headed (lines_of bytes.now) ≡ false)
        (AreBehindFirst (lines_of bytes.now)) }
{
    let mut lines = Lines::new(bytes);
    match lines.next() {
        Some(line) if is_header(line.text) => Some(lines),
        _ => None,
    }
}

/// Takes what one more line gives.
fn take_line(alloc: Global, limits: &Limits, line: &[u8], given: &mut Given) -> Result<(), LineErr>
    ensures taken { OnOk result
        (given.new ≡ spec.given_with (statement_of limits.now line.now) given.old) }
    ensures free { OnOk result (spec.line_refusal limits.now given.old line.now ≡ None) }
    ensures refused { IfErr result (λ e. IsOf e (spec.line_refusal limits.now given.old line.now)) }
{
    match statement_of(alloc, limits, line)? {
        Some(statement) => given.add(limits, statement),
        None => Ok(()),
    }
}

/// Takes what the lines behind the first one give. Answers the number of the last line.
#[tactic(auto, using(crate::proofs::JobLines::taking))]
fn take_lines(
    alloc: Global,
    limits: &Limits,
    mut lines: Lines,
    given: &mut Given,
) -> Result<u32, JobErr>
    requires first { lines.before ≡ 1 }
    requires nothing { given.old ≡ spec.given_behind limits.now [] }
    ensures taken { OnOk result (given.new ≡ spec.given_behind limits.now lines.entry.left) }
    ensures last { IfOk result (λ last. last ≡ length lines.entry.left + 1) }
    ensures free { OnOk result (spec.first_refusal limits.now [] lines.entry.left ≡ None) }
    ensures refused { IfErr result
        (λ e. IsRefusal e (spec.first_refusal limits.now [] lines.entry.left)) }
{
    let mut last = 1;
    while let Some(line) = lines.next() {
        last = line.number;
        match take_line(alloc, limits, line.text, given) {
            Ok(()) => {}
            Err(e) => return Err(e.at(line.number)),
        }
    }
    Ok(last)
}

/// The job of a text in a format.
#[tactic(auto, using(crate::proofs::JobParts::composing))]
fn job(alloc: Global, limits: &Limits, bytes: &[u8]) -> Result<Job, JobErr>
    requires { length bytes.now < 2 ^ 32 - 1 }
    ensures { Answers result (spec.job_of limits.now (lines_of bytes.now)) }
{
    let Some(lines) = lines_behind(bytes) else {
        return Err(refused(1, JobKind::First));
    };
    let mut given = Given::new(alloc);
    let last = take_lines(alloc, limits, lines, &mut given)?;
    match given.job(limits) {
        Ok(job) => Ok(job),
        Err(kind) => Err(refused(last + 1, kind)),
    }
}

/// The job of a text in the format 1.
///
/// Refuses by the first line that is wrong, and by the first of its causes: `First`, or in this order `Word`, `Form`,
/// `Range`, `Twice` and `TooMany`. Where no line is wrong, by `NoProgram` and then `Small`, one line behind the last.
pub fn read_job(alloc: Global, bytes: &[u8]) -> Result<Job, JobErr>
    requires { length bytes.now < 2 ^ 32 - 1 }
    ensures job { IfOk result (λ job. spec.IsJob bytes.now job) }
    ensures refused { IfErr result (λ e. spec.IsRefusedBy bytes.now e) }

    // Both answers are the only ones, unless memory is wanted.
    ensures only { (job : Job) → spec.IsJob bytes.now job → IsAnswer result (Ok job) }
    ensures first { (r : JobRefusal) →
        spec.IsRefused bytes.now r → IsAnswer result (Err (Refused r)) }

    // What callers need of a job: the plan fits, and everything lies within the limits.
    ensures fits { IfOk result (λ job. Fits job.plan) }
    ensures sound { IfOk result (IsSound first_format) }
{
    job(alloc, &FORMAT_1, bytes)
}
