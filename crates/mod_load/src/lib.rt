//! The loader: one process, where its modules are placed, and its memory.
#![tactic(auto)]

mod accessors;
mod descriptors;
mod loader;
mod program;
mod slots;
mod tables;
mod targets;

pub use load_model::{
    LoadErr, LoadRefusal, MAX_MODULES, MemPlan, PlaceLine, Places, SlotPair, SymbolicProcess,
};
pub use load_state::GroupPlan;
pub use loader::Loader;
pub use program::load_program;
