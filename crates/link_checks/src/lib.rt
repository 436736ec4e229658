//! The tests of all relocations of a link, and what has been looked up of each.
#![tactic(auto)]

mod covered;
mod entry;
mod facts;
mod linking;
mod shown;
mod sites;

pub use entry::check_entry;
pub use linking::Linking;
pub use shown::Shown;
pub use sites::check_sites;
