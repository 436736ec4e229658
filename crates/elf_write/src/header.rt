//! The ELF header of a written file.

/// The fields in which written files differ.
#[derive(Clone, Copy)]
pub struct FileHeader {
    /// `ET_REL`, `ET_EXEC` or `ET_DYN`.
    pub kind: u16,
    /// The link address at which a program begins.
    pub entry: u32,
    /// The offset of the program headers.
    pub phoff: u32,
    /// How many program headers there are.
    pub phnum: u16,
    /// The offset of the section headers.
    pub shoff: u32,
    /// How many section headers there are.
    pub shnum: u16,
    /// Which section has the names of the sections.
    pub shstrndx: u16,
}
