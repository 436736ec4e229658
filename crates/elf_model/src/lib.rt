//! Arm FDPIC objects: their types, the numbers of the ELF tables, and (in `specs/`) what it means that
//! bytes are an object. Nothing here reads or writes a file.
#![tactic(auto)]

pub mod constants;
mod filled;
mod func;
mod laws;
mod object;
mod places;
mod refusal;
mod relocatable;
mod symbol_hash;
mod table;

pub use filled::{FilledSite, FilledSites};
pub use func::Func;
pub use laws::{accepted_is_rel_sound, accepted_is_sound, numbers, one_object, one_relocatable};
pub use object::{
    Extent, Inits, Kind, Object, Place, Rel, Rels, Segment, Segments, Symbol, Symbols,
};
pub use places::{file_word, is_executable_in};
pub use refusal::{ElfKind, ElfRefusal};
pub use relocatable::{RelObject, RelObjects, RelSection, RelSections};
pub use symbol_hash::hash;
pub use table::{DynEntry, ProgramHeader, RelEntry, RelTable, SectionHeader, Site, SymbolEntry};
