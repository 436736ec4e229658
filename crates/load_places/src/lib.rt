//! What a load writes into a guest's memory: all of the new modules, and the descriptors that functions get; and the laws
//! by which all that a plan adds has its place there.
#![tactic(auto)]

mod descriptors;
mod laws;
mod modules;

pub use descriptors::put_descriptors;
pub use laws::{given_slots_have_room, maps_end, plans_are_placeable, steps_commit};
pub use modules::put_modules;
