//! What symbols are once those of all inputs are joined.

/// A symbol once all are joined.
#[derive(Clone, Copy, PartialEq, Eq)]
pub enum Key {
    /// All symbols of the name of this number. Names are numbered by first appearance.
    Name(u32),
    /// A symbol that is joined with no other: the number of its input, and its own there.
    Own(u32, u32),
}

/// Where a symbol is defined.
#[derive(Clone, Copy, PartialEq, Eq)]
pub enum Spot {
    /// In no input.
    Nowhere,
    /// It is this number, and no address.
    Absolute(u32),
    /// The number of a section among those of all inputs, and an offset in it, in bytes.
    Section(u32, u32),
    /// The common block of the name of this number.
    Common(u32),
}

/// Who settles what a symbol is.
#[derive(Clone, Copy, PartialEq, Eq)]
pub enum Reach {
    /// The linker: it is what the inputs define.
    Settled,
    /// The linker: there is no definition, and no other object can have one.
    Nothing,
    /// The loader.
    Dynamic,
}

/// A symbol once all are joined.
#[derive(Clone, Copy, PartialEq, Eq)]
pub struct Target {
    /// Which one it is.
    pub key: Key,
    /// Where it is defined.
    pub spot: Spot,
    /// Who settles it.
    pub reach: Reach,
    /// `STB_GLOBAL` and the like.
    pub binding: u8,
    /// `STT_FUNC` and the like.
    pub kind: u8,
    /// `STV_DEFAULT` and the like.
    pub visibility: u8,
    /// Its size in bytes.
    pub size: u32,
    /// The alignment of a common block in bytes, and 1 of all else.
    pub align: u32,
}
