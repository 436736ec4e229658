//! Why bytes are no object.

/// Which test the bytes fail.
#[derive(Clone, Copy, PartialEq, Eq)]
pub enum ElfKind {
    /// The file ends inside the ELF header.
    Short = 1,
    /// A byte of the identification.
    Ident,
    /// Another machine, or another version of the EABI.
    Machine,
    /// Another type of file.
    FileType,
    /// A field of the ELF header.
    Header,
    /// The range or the alignment of a segment.
    SegmentRange,
    /// A segment whose memory meets an earlier one's.
    SegmentOverlap,
    /// One entry too many of a table.
    TooMany,
    /// The dynamic section isn't held, or has no end.
    DynRange,
    /// Relocations with addends of their own.
    Rela,
    /// No GOT, or one that isn't in writable memory.
    NoGot,
    /// Nothing tells how many symbols there are.
    NoCount,
    /// A table, or an entry of one, that makes no sense.
    Table,
    /// A name that isn't in the strings, or is too long or empty.
    NameRange,
    /// Thread-local storage.
    Tls,
    /// A Thumb function.
    Thumb,
    /// Relocations in text.
    TextRel,
    /// A kind of relocation that its table can't have.
    RelocType,
    /// A site that isn't in writable memory at a multiple of 4.
    SiteRange,
    /// A site that meets an earlier one or the header of the GOT.
    SiteOverlap,
    /// A group of sections.
    Group,
    /// A function that isn't at a multiple of 4 in an executable segment.
    FunctionPlace,
}

/// The first failing test.
#[derive(Clone, Copy, PartialEq, Eq)]
pub struct ElfRefusal {
    /// Which test fails.
    pub kind: ElfKind,
    /// Where it fails in the file, in bytes.
    pub at: u32,
}
