//! Where everything of a linked object lies: its sections, what stands in its GOT, the entries of its PLT and its
//! common blocks.
#![tactic(auto)]

mod blocks;
mod data;
mod gather;
mod got;
mod heads;
mod layout;
mod lying;
mod needs;
mod text;
mod wants;

pub use gather::{gather_needs, is_dropped, is_own_undefined};
pub use heads::{SectionHead, SectionHeads, section_heads, section_of};
pub use layout::Layout;
pub use needs::NeedTable;
pub use text::TextPlaces;
pub use wants::descriptor_need;
