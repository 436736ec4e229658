//! Processes without addresses: which modules are live, where their symbols are looked up, which modules a load adds with
//! which numbers, and the process after it.
#![tactic(auto)]

mod added;
mod fetch;
mod found;
mod joining;
mod laws;
mod numbers;
mod scope;
mod step;
mod walk_laws;
mod walking;

pub use added::Walk;
pub use joining::{join, new_process};
pub use laws::{empty_scope, loads_join, loads_keep_valid, loads_leave_scopes, numbers_are_free};
pub use scope::{global_after, scope_with};
pub use walk_laws::{walks_are_determined, walks_close};
pub use walking::walk;
