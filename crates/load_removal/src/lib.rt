//! What taking modules out of a loader does, and what holds afterwards. Laws over the definitions of `load_state`; nothing
//! here runs.
#![tactic(auto)]

mod laws;

pub use laws::{others_are_valid, removals_keep_addresses, removals_keep_consistent};
