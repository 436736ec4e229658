//! A turn of one thread: the instruction at its pc with the service that it asks for, and what that does to its calls, the
//! threads and the journal.
#![tactic(auto)]

mod begun;
mod bytes;
mod calls;
mod clear;
mod entries;
mod instruction;
mod laws;
mod lookups;
mod placed;
mod quiet;
mod service;
mod settling;

pub use begun::call_begun;
pub use calls::{Events, follow};
pub use laws::stops_keep;
pub use lookups::Lookups;
pub use placed::{PlacedModules, Step};
pub use quiet::{Passed, is_quiet, obey_on};
pub use service::serve;
pub use settling::{Settled, settle, stopped};
