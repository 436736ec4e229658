//! What is written is read back. Laws over the definitions of `elf_write` and `elf_model`; nothing here runs.
#![tactic(auto)]

mod read_back;

pub use read_back::{written_is_read, written_object_is_read};
