//! A process that runs: its start from a job, the turns of its threads, and the run of a job to its end.
#![tactic(auto)]

mod begin;
mod course;
mod end;
mod process;
mod taking;

pub use course::run;
pub use end::RunEnd;
pub use process::Process;
