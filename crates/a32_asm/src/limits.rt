//! How much a text may have.

/// The most bytes of a section.
pub const SECTION_MAX: u32 = 4_194_304;
/// So many different names are too many.
pub const NAMES_REFUSED: usize = 65_536;
/// The most relocations of a section.
pub const RELS_MAX: usize = 65_536;
