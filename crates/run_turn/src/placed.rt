//! The modules of a process, and a step of one of its threads.

use load_model::{MapEntries, SymbolicProcess};

/// The modules of a process, and where each is placed.
#[derive(Drop)]
pub struct PlacedModules<'a> {
    pub process: &'a SymbolicProcess,
    /// The load map of each module, by number.
    pub maps: &'a [MapEntries],
}

/// A step of a thread that is done.
#[derive(Clone, Copy)]
pub struct Step {
    /// How many steps of the run are done with it.
    pub step: u32,
    /// The number of its thread.
    pub thread: u32,
}
