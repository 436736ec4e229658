//! What loading makes of objects: laws that tie `link_sites` to loaders. Nothing here runs.
#![tactic(auto)]

mod laws;

pub use laws::{loaders_hold_modules, plans_make_modules, words_stand};
