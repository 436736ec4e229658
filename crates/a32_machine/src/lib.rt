//! One step of the machine: an instruction of the A32 subset, over a guest's memory.
#![tactic(auto)]

mod arithmetic;
mod branch;
mod condition;
mod cpu;
mod data;
mod decoded;
mod landing;
mod laws;
mod machine;
mod multiple;
mod multiply;
mod registers;
mod shifter;
mod transfer;

pub use cpu::{Cpu, StepEnd, StepStop};
pub use decoded::DecodedWords;
pub use laws::{depends_on, entry_arrives, fits, frames, lazy_place_arrives};
pub use machine::{step, step_decoded};
