//! The code of the PLT: the words of an entry, and where an object's entries stand.
#![tactic(auto)]

mod entered;
mod laws;
mod lazy;
mod listing;
mod scan;
mod standing;
mod table;
mod words;

pub use entered::slot_entered;
pub use laws::{
    entries_stand, lazy_calls_stand, one_listing, one_slot, slots_entered, whole_entries_are_found,
};
pub use lazy::lazy_place;
pub use listing::{Entries, Entry, entries};
pub use standing::{is_code_in, is_near, spans, stand_at};
pub use words::entry_words;
