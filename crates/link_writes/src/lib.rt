//! What is linked can be written. Laws over the definitions of `link_model` and `elf_write`; nothing here runs.
#![tactic(auto)]

mod law;

pub use law::linked_is_writable;
