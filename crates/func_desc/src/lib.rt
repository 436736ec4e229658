//! Descriptors of functions: one address for each function.
#![tactic(auto)]

mod buckets;
mod laws;
mod pool;
mod slots;

pub use laws::free_slots_are_free;
pub use pool::{DescPool, Full};
pub use slots::DESCRIPTOR_SIZE;
