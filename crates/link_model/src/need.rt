//! What relocations want to have in the GOT.

use crate::target::Key;

/// What stands in the GOT behind its header.
#[derive(Clone, Copy, PartialEq, Eq)]
pub enum UseKind {
    /// A word with an address.
    Word,
    /// A word with the address of a function's descriptor.
    FuncWord,
    /// A function's descriptor, of two words.
    Descriptor,
    /// The slot of an entry of the PLT, of two words.
    Slot,
}

/// What a relocation wants to have in the GOT.
#[derive(Clone, Copy, PartialEq, Eq)]
pub enum Need {
    /// A word with the address of the symbol.
    Word(Key),
    /// A word with the address of the symbol's descriptor.
    FuncWord(Key),
    /// The descriptor of the function at a link address, which is a whole number and may pass 32 bits.
    Descriptor(u64),
    /// The descriptor of a symbol that is no function. Such a relocation is refused later.
    NoFunction(Key),
    /// The slot of the symbol.
    Slot(Key),
}
