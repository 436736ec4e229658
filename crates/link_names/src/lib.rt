//! The symbols of all inputs joined by name: which definition is taken of each name, and what each symbol is then.
#![tactic(auto)]

mod group;
mod groups;
mod joined;
mod mention;
mod numbering;
mod refusals;
mod target;

pub use joined::{Joined, join};
pub use mention::is_joined;
