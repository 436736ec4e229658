//! The report of a run: the line of an event, the text of several, and a report put on a sink line by line.
#![tactic(auto)]

mod call_line;
mod field;
mod line;
mod output;
mod text;

pub use line::{put_event, put_events};
pub use output::put_report;
