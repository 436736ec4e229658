//! Modules written into a guest's memory: the memory of a new process, new modules, and descriptors.
#![tactic(auto)]

mod bytes;
mod fresh;
mod laws;
mod place;
mod segments;
mod tables;
mod watch;

pub use bytes::put_pair;
pub use fresh::new_memory;
pub use laws::{layouts_agree, put_pairs_keep_layout, room_is_free, stores_keep};
pub use place::put_module;
