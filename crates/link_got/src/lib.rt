//! What stands in the PLT and in the GOT of a linked object, and what of it is left to the loader.
#![tactic(auto)]

mod got;
mod plt;
mod rels;
mod row;

pub use got::got_words;
pub use plt::plt_words;
pub use rels::{need_rels, put_rel, slot_rels};
