//! The plan of a load: the tables of names, what is linked, where it is placed, and the finished bytes. All refusals and
//! all memory are here.
#![tactic(auto)]

mod filling;
mod layout;
mod linking;
mod maps;
mod placing;
mod planning;
mod tables;
mod targets;

pub use layout::Standing;
pub use planning::{Request, plan_group};
