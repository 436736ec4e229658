//! What relocations of Arm objects fill in, as ELF for the Arm Architecture and the Arm FDPIC ABI define it.
#![tactic(auto)]

mod branch;
mod laws;
mod value;

pub use branch::{MAX_DISTANCE, MIN_DISTANCE, branch_addend, branch_field};
pub use laws::fields_are_read_back;
pub use value::apply_value;
