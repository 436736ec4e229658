//! What opening, asking and closing libraries means, over processes without addresses, and what holds of it. Definitions and
//! laws; nothing here runs.
#![tactic(auto)]

mod laws;

pub use laws::{
    closes_are_determined, left_may_go, opens_are_determined, recounts_keep_consistent,
    steps_keep_held, steps_keep_valid,
};
