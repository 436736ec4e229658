//! What the linker writes at one relocation, and why it can't be linked, from facts that have been looked up.
#![tactic(auto)]

mod bounds;
mod check;
mod contents;
mod cross;
mod distance;
mod facts;
mod kinds;
mod need;
mod reach;
mod rel;
mod word;
mod wrong_type;

pub use bounds::Bounds;
pub use check::check_site;
pub use contents::{Content, put_contents};
pub use facts::Facts;
pub use kinds::{is_function_kind, is_idle};
pub use need::{
    DescriptorRels, descriptor_rels, descriptor_word, func_word_rel, symbol_word, word_rel,
};
pub use reach::{is_dynamic, is_shown};
pub use rel::rel_at;
pub use word::word_at;
