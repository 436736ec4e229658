//! The commands of the program `fdpic`. `top` carries each claim as a clause, and one law says that each command has an
//! outcome.
#![tactic(auto)]

mod assemble;
mod bind;
mod code;
mod command;
mod entry;
mod files;
mod job;
mod laws;
mod line;
mod link;
mod link_form;
mod program;
mod run;
mod show;
mod slot_listing;
mod status;

pub use entry::top;
pub use laws::commands_come_to;
pub use status::{Refusal, Status};
