//! The finished bytes of placed modules: load maps, items to be placed, the words that loading writes, and the bytes of
//! each placed segment.
#![tactic(auto)]

mod descriptors;
mod filling;
mod finished;
mod hashed;
mod laws;
mod pairs;
mod places;
mod segments;
mod write;

pub use descriptors::Descriptors;
pub use filling::words;
pub use finished::{Image, image};
pub use laws::sites_hold_their_words;
pub use pairs::{SitePair, placed_pairs};
pub use places::Places;
pub use segments::{items, load_map};
pub use write::write_words;
