//! What lies at a placed address: the code of the modules of a process, and the entries of their procedure linkage tables;
//! and where their entry points and GOTs are placed.
#![tactic(auto)]

mod code;
mod laws;

pub use code::{code_at, entry_at, entry_point, got_at, got_word};
pub use laws::consistent_are_placed;
