//! Calls through entries of the procedure linkage table, over the modules of a consistent loader: what such a call reads
//! stands in memory and stays, and the call arrives, whatever other threads do. Laws; nothing here runs.
#![tactic(auto)]

mod begins;
mod standing;
mod turns;

pub use begins::{begun_calls_hold, slots_lead_to_placed_code};
pub use standing::{calls_are_held, gots_name_modules};
pub use turns::{calls_arrive, calls_go_on, courses_are_turns, turns_keep};
