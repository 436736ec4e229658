//! What a run is asked for.

use fd_base::{Name, Seq};
use load_model::MemPlan;

/// What a run is asked for.
#[derive(Drop)]
pub struct Job {
    /// How the memory of the process is parted, and the addresses that are listed for modules.
    pub plan: MemPlan,
    /// Whether a function's address is looked up at its first call, and not when its module is loaded.
    pub lazy: bool,
    /// The most steps that the run takes.
    pub steps: u32,
    /// The name of the executable.
    pub program: Name,
    /// The threads' turns, in order.
    pub turns: Turns,
}

/// Thread `thread` is to run for up to `count` steps.
#[derive(Clone, Copy, PartialEq, Eq)]
pub struct Turn {
    /// The number of the thread, counted from 0.
    pub thread: u32,
    /// The most steps that it takes.
    pub count: u32,
}

/// Turns in order.
pub type Turns = Seq<Turn>;
