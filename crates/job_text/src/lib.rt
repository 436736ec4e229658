//! The text of a job: what a run is asked for, in lines.
#![tactic(auto)]

mod fields;
mod given;
mod laws;
mod limits;
mod read;
mod refusal;
mod statement;

pub use laws::{each_kind, one_job, refused_where, sound_job};
pub use limits::{Bounds, FORMAT_1, Limits, Setting};
pub use read::read_job;
pub use refusal::{JobErr, JobKind, JobRefusal};
