//! What a walk answers.

use fd_base::{Numbers, Seq};
use load_model::Joining;

/// What a load adds to a process.
#[derive(Drop)]
pub struct Walk {
    /// The modules that it adds, in the order of the walk.
    pub joining: Seq<Joining>,
    /// The numbers of all that is needed from the root on, live or new, in the order of the walk. The first is the
    /// root's.
    pub members: Numbers,
}
