//! What a loader holds, what holds of it, when a load is accepted, and what it does: definitions. The code stands in
//! `mod_load`.
#![tactic(auto)]

mod plan;

pub use plan::{Descriptors, GroupPlan, Parts, Targets};
