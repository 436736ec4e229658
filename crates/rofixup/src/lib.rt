//! The list of `.rofixup`: the words that hold link addresses, which become placed addresses at the start.
#![tactic(auto)]

mod laws;
mod list;
mod placing;

pub use laws::{lists_read_back, values_are_placed};
pub use list::emit;
pub use placing::{Outside, apply};
