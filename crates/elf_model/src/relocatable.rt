//! Relocatable files.

use crate::object::{Rels, Symbols};
use fd_base::{Bytes, Name, Seq};

/// A section that has memory at run time.
#[derive(Drop)]
pub struct RelSection {
    /// Its name, and none where that is empty.
    pub name: Option<Name>,
    /// `SHT_PROGBITS`, `SHT_NOTE`, `SHT_NOBITS`, `SHT_INIT_ARRAY` or `SHT_FINI_ARRAY`.
    pub kind: u32,
    /// `SHF_ALLOC` with `SHF_WRITE`, `SHF_EXECINSTR` and the like.
    pub flags: u32,
    /// Its alignment in bytes: 0 or a power of two.
    pub align: u32,
    /// Its size in bytes.
    pub size: u32,
    /// Its bytes in the file: none for a section of kind `SHT_NOBITS`.
    pub filled: Bytes,
    /// Its relocations, whose sites are offsets in the section.
    pub rels: Rels,
}

/// The kept sections of a file, by number.
pub type RelSections = Seq<RelSection>;
/// Relocatable files in order.
pub type RelObjects = Seq<RelObject>;

/// A relocatable file.
#[derive(Drop)]
pub struct RelObject {
    /// The sections that are kept.
    pub sections: RelSections,
    /// Its symbols. Symbol 0 is the null symbol.
    pub symbols: Symbols,
}
