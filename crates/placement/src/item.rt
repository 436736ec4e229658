//! What is placed, and what is held.

use fd_base::Seq;

/// What is to be placed, as one segment of a module.
#[derive(Clone, Copy)]
pub struct Item {
    /// Whose range it becomes: a number below 512.
    pub owner: u32,
    /// The link address of its first byte, which the placed one is congruent to.
    pub vaddr: u32,
    /// How many bytes it takes, above 0.
    pub memsz: u32,
    /// The alignment, in bytes. Placing raises it to at least 16 and cuts it to at most 4,096.
    pub align: u32,
    /// The listed placed address of its first byte. Without one the item goes to the lowest legal address.
    pub at: Option<u32>,
}

/// A range of placed addresses with its owner.
#[derive(Clone, Copy)]
pub struct Held {
    /// Whose range it is: a number below 512.
    pub owner: u32,
    /// The placed address of its first byte.
    pub start: u32,
    /// How many bytes are held from the start on.
    pub len: u32,
}

/// Items in the order in which they are placed.
pub type Items = Seq<Item>;
/// Placed addresses in order, as those of items.
pub type Addrs = Seq<u32>;
