//! The reader of executables and shared objects. Bytes are accepted exactly where they are an object, and refused by
//! the first test that they fail. What it has in common with the reader of relocatable files is public.
#![tactic(auto)]

mod dynamic;
mod error;
mod fields;
mod fixups;
mod flags;
mod got;
mod header;
mod held;
mod names;
mod object;
mod refusals;
mod relocations;
mod sections;
mod segments;
mod sites;
mod strings;
mod symbols;
mod tables;

pub use elf_model::{ElfKind, ElfRefusal};
pub use error::ReadErr;
pub use fields::{e_shnum, e_shoff, e_shstrndx};
pub use header::{check_file, check_section_table, passes_end};
pub use held::has_flag;
pub use object::read_object;
pub use refusals::{refusal, refuse};
pub use sections::{section_header, section_names, section_offset};
pub use strings::{name_at, name_of, string_at};
pub use symbols::{is_defined_function, null_symbol, symbol_entry};
pub use tables::rel_entry;
