//! Load maps: where the segments of a module lie, and the bytes by which the module itself learns it.
#![tactic(auto)]

mod entry;
mod image;
mod laws;
mod map;
mod maps;
mod translation;

pub use entry::MapEntry;
pub use image::MapImage;
pub use laws::{places_stay_distinct, segments_stay_whole};
pub use map::{LoadMap, MAX_ENTRIES};
pub use maps::map_at;
pub use translation::{address_of, is_placed_at, placed};
