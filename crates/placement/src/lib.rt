//! Where segments may lie: lowest legal addresses, and the ranges that are held.
#![tactic(auto)]

mod extents;
mod item;
mod laws;
mod ranges;
mod search;

pub use item::{Addrs, Held, Item, Items};
pub use laws::{holds_just_these, keeps_apart, one_placing, regardless_of_order};
pub use ranges::{PlaceErr, Ranges};
