//! Nodes by number in one order, with a chain for each owner. Nothing takes memory but making room.
#![tactic(auto)]

mod chains;
mod links;
mod pool;
#[cfg(test)]
mod tests;

pub use pool::Pool;
