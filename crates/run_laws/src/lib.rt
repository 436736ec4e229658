//! What holds of every run of a job: it is determined, it ends, and its journal tells calls that arrive. Laws over the
//! definitions of `proc_run`; nothing here runs.
#![tactic(auto)]

mod journals;
mod laws;

pub use journals::runs_have_journals;
pub use laws::{runs_are_determined, runs_come_to, runs_end};
