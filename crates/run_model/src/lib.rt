//! What a run is: its job, its threads, their steps, calls and services, and the line of each event. Definitions, and the
//! types that stand for them; the code that runs stands in the crates above.
#![tactic(auto)]

mod event;
mod job;
mod laws;
mod service;
mod thread;

pub use event::{Event, Stop};
pub use job::{Job, Turn, Turns};
pub use laws::numbers;
pub use service::{DONE, EXIT, LAST_ERROR, MAX_OUT, OUT, OUT_TOO_LONG, REFUSED, Served, TURN};
pub use thread::{BOUND_CALL, Call, Calls, LONGEST_CALL, Thread, Threads, Turned};
