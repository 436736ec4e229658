//! What linking means: the symbols of all inputs joined, the layout of the linked object, what each relocation becomes,
//! and why a link is refused. The code that links stands in the crates above.
#![tactic(auto)]

mod error;
mod input;
mod laws;
mod limits;
mod need;
mod target;

pub use error::{LinkErr, LinkRefusal, Site};
pub use input::{Lib, Libs, Mode};
pub use laws::{
    names_are_numbered, needs_lie_apart, numbers, passing_is_fitting, sections_lie_apart,
    sites_lie_apart, words_are_linked,
};
pub use limits::{LAZY_OFFSET, MAX_NEEDS, PLT_ENTRY_SIZE, SEGMENT_STEP};
pub use need::{Need, UseKind};
pub use target::{Key, Reach, Spot, Target};
