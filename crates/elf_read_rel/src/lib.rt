//! The reader of relocatable files. Bytes are accepted exactly where they are one, and refused by the first test that
//! they fail. Each pass goes over headers, symbols or relocations once.
#![tactic(auto)]

mod header;
mod kept;
mod object;
mod relocations;
mod symbols;

pub use elf_read::ReadErr;
pub use object::read_rel_object;
