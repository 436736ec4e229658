//! Names over modules: which module defines a name in a scope, and which modules a module needs.
#![tactic(auto)]

mod closing;
mod exports;
mod laws;
mod slots;
mod table;
mod tables;

pub use exports::{Exports, is_exported};
pub use laws::{closures_of_names, closures_of_numbers, exports_are_first};
pub use table::Table;
pub use tables::{Found, MAX_MODULES, Tables};
