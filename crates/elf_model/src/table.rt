//! The entries of an object's tables, as they stand in the file.

/// A program header (gABI, "Program Header"). The fields that nothing looks at are left out.
#[derive(Clone, Copy)]
pub struct ProgramHeader {
    /// `PT_LOAD` and the like.
    pub kind: u32,
    /// Where the bytes of its segment stand in the file, in bytes.
    pub offset: u32,
    /// The link address of the first byte.
    pub vaddr: u32,
    /// How many bytes the file has.
    pub filesz: u32,
    /// How many bytes there are in memory.
    pub memsz: u32,
    /// `PF_R`, `PF_W` and `PF_X`.
    pub flags: u32,
    /// The alignment in memory, in bytes.
    pub align: u32,
}

/// A section header (gABI, "Section Header").
#[derive(Clone, Copy)]
pub struct SectionHeader {
    /// Where its name stands in the names of sections, in bytes.
    pub name: u32,
    /// `SHT_PROGBITS` and the like.
    pub kind: u32,
    /// `SHF_WRITE` and the like.
    pub flags: u32,
    /// The link address of the first byte, 0 where it has no memory.
    pub addr: u32,
    /// Where its bytes stand in the file, in bytes.
    pub offset: u32,
    /// Its size in bytes.
    pub size: u32,
    /// The number of the section that it goes with.
    pub link: u32,
    /// The number of a section or of a symbol, by the kind.
    pub info: u32,
    /// Its alignment in bytes.
    pub align: u32,
}

/// An entry of the dynamic section (gABI, "Dynamic Section"), and where it stands in the file.
#[derive(Clone, Copy)]
pub struct DynEntry {
    /// Where it stands in the file, in bytes.
    pub offset: u32,
    /// `DT_NEEDED` and the like.
    pub tag: u32,
    /// A link address, a size in bytes or another number, by the tag.
    pub value: u32,
}

/// A symbol (gABI, "Symbol Table"), and where it stands in the file.
#[derive(Clone, Copy)]
pub struct SymbolEntry {
    /// Where it stands in the file, in bytes.
    pub offset: u32,
    /// Where its name stands in the strings, in bytes.
    pub name: u32,
    /// A link address, or the value of an absolute symbol.
    pub value: u32,
    /// Its size in bytes.
    pub size: u32,
    /// The binding times 16, and the type.
    pub info: u8,
    /// The visibility in the lowest two bits.
    pub other: u8,
    /// The index of its section header, or `SHN_UNDEF` and the like.
    pub section: u16,
}

/// Which table a relocation stands in.
#[derive(Clone, Copy, PartialEq, Eq)]
pub enum RelTable {
    /// That of DT_REL.
    Rel,
    /// That of DT_JMPREL: the relocations of the slots.
    JmpRel,
}

/// A relocation entry (gABI, "Relocation"), its table, and where it stands in the file.
#[derive(Clone, Copy)]
pub struct RelEntry {
    /// The table that it stands in.
    pub table: RelTable,
    /// Where it stands in the file, in bytes.
    pub offset: u32,
    /// The link address of the word, or of the two words, that it fills.
    pub site: u32,
    /// `R_ARM_RELATIVE` and the like.
    pub kind: u8,
    /// The number of its symbol.
    pub symbol: u32,
}

/// A range of link addresses that a relocation or a fixup fills.
#[derive(Clone, Copy, PartialEq, Eq)]
pub struct Site {
    /// The link address of the first byte.
    pub addr: u32,
    /// How many bytes there are.
    pub size: u32,
}
