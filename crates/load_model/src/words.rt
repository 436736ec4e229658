//! Words that loading writes.

/// A word that loading writes at a link address.
#[derive(Clone, Copy)]
pub struct LinkWord {
    /// The link address of its first byte.
    pub addr: u32,
    /// The word itself, which is written little-endian. Where it is an address, that is a placed one.
    pub value: u32,
}

/// What a slot holds.
#[derive(Clone, Copy, PartialEq, Eq)]
pub struct SlotPair {
    /// The placed address of the slot.
    pub addr: u32,
    /// Its first word: the placed entry point of the function.
    pub code: u32,
    /// Its second word: the placed address of the GOT of the function's module.
    pub got: u32,
}
