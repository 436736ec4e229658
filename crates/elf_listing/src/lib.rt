//! What an object or a relocatable file holds, as text, a line for each thing; and the text of what the bytes of a file
//! are.
#![tactic(auto)]

mod object;
mod relocatable;
mod relocations;
mod shown;
mod symbols;

pub use object::object_listing;
pub use relocatable::relocatable_listing;
pub use shown::listing_of;
