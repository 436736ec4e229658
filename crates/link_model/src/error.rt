//! Why a link is refused.

use fd_base::Name;
use std::alloc::AllocError;

/// A relocation of an input.
#[derive(Clone, Copy, PartialEq, Eq)]
pub struct Site {
    /// The number of the input.
    pub input: u32,
    /// The number of its section among those of the input that are kept.
    pub section: u32,
    /// The offset of the relocated word in the section, in bytes.
    pub offset: u32,
}

/// Why inputs are not linked. Of several causes the first is given: those of files come first, then `Twice` and
/// `Undefined` by first appearance of the names, `TooLarge` of the GOT, those of each relocation in order, `NoEntry`,
/// and `TooLarge` of the object.
#[derive(Drop)]
pub enum LinkRefusal {
    /// The input of this number is no relocatable file.
    Elf(u32),
    /// Two inputs have a global definition of the name.
    Twice(Name),
    /// No input defines the name, it isn't weak, and no other object can define it.
    Undefined(Name),
    /// The relocation leads out of its segment, or further than it reaches.
    CrossSegment(Site),
    /// The relocation can't be linked: its kind, its addend, its place or its symbol.
    RelocType(Site),
    /// A relocation of a branch on an instruction that changes to Thumb code.
    ThumbBranch(Site),
    /// A program has no `_start`, or not in its code.
    NoEntry,
    /// The object passes a limit.
    TooLarge,
    /// The library of this number is no object.
    LibElf(u32),
}

/// Why nothing is linked.
#[derive(Drop)]
pub enum LinkErr {
    Refused(LinkRefusal),
    /// Memory is wanted.
    Memory,
}

impl From<AllocError> for LinkErr {
    ghost use Rattle.std.specs.Prelude.{◌≡◌};
    ghost use Rattle.link_model.specs.declared.error.LinkErr.TheVariants.{Memory};

    ghost from_gives = { λ _ e. e ≡ Memory };

    fn from(_error: AllocError) -> Self {
        LinkErr::Memory
    }
}
