//! How a run goes on, and how it ends.

use load_model::LoadRefusal;
use run_model::Stop;

/// How the run of a job ends.
#[derive(Drop)]
pub enum RunEnd {
    /// The process has ended, or no thread lives.
    Ended,
    /// The run stops.
    Stopped(Stop),
    /// The program isn't loaded.
    Refused(LoadRefusal),
    /// The store's fault, which it has counted.
    StoreFault,
    /// The sink's fault, which it has counted.
    SinkFault,
    /// Memory is wanted.
    Memory,
}

/// Who has the next turn.
#[derive(Clone, Copy, PartialEq, Eq)]
pub(crate) enum Going {
    /// The same thread.
    Same,
    /// Another thread: this one has given up its turn, or has ended.
    Others,
}
