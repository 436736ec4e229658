//! All that the tests and the word of one relocation depend on.

use crate::bounds::Bounds;
use link_model::Target;

/// What has been looked up of one relocation. `AreFacts` says what each field is.
#[derive(Clone, Copy, PartialEq, Eq)]
pub struct Facts {
    /// `R_ARM_ABS32` and the like.
    pub kind: u8,
    /// The input's word.
    pub word: u32,
    /// The link address of the word.
    pub place: u64,
    /// Whether it lies in a section of the data.
    pub is_writable: bool,
    /// Whether it meets the word of an earlier relocation of its section, neither being idle.
    pub meets_earlier: bool,
    /// Whether its symbol is in a section that isn't kept.
    pub is_dropped: bool,
    /// Whether its symbol is its own and nowhere defined.
    pub is_own_undefined: bool,
    /// What its symbol is once all are joined.
    pub target: Target,
    /// The link address of the symbol's definition, or the number that it is.
    pub address: u64,
    /// Whether the symbol is defined in a section of the text.
    pub in_text: bool,
    /// Whether it is defined in a section of the data, or is a common block.
    pub in_data: bool,
    /// Whether its definition is a function.
    pub is_function: bool,
    /// Where the segments lie.
    pub bounds: Bounds,
    /// The link address of the symbol's entry in the PLT, where the loader settles the symbol.
    pub entry: u64,
    /// The offset from the GOT, in bytes, of what the relocation's kind names there.
    pub offset: u32,
    /// The number of the symbol among those that the loader sees, where the loader settles it.
    pub symbol: u32,
}
