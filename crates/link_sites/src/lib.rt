//! What the sites of an object mean after loading: laws over the definitions of `load_model`, whatever else is loaded,
//! wherever the segments lie, and whichever slots are unbound. Nothing here runs.
#![tactic(auto)]

mod laws;

pub use laws::{fixups_mean_relative, linked_sites_mean};
