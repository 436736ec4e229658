//! What loads over told files come to. Laws over the definitions of `load_state`; nothing here runs.
#![tactic(auto)]

mod laws;

pub use laws::loads_come_to;
