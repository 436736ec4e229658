//! The linked object, from what has been looked up of its inputs.
#![tactic(auto)]

mod contents;
mod extents;
mod object;
mod rels;
mod segments;
mod symbols;
mod words;

pub use object::linked_object;
