//! Where the pieces of a segment lie: one behind the other, each at a multiple of its alignment.
#![tactic(auto)]

mod laws;
mod layout;

pub use laws::pieces_lie_apart;
pub use layout::{Laid, Piece, lay};
