//! The linker: relocatable files become the file of a program or of a shared object.
#![tactic(auto)]

mod linker;
mod sizes;
mod tested;

pub use linker::link;
