//! Sizes and limits of linked objects.

/// The data segment begins at a multiple of this link address, so that no change of the text's size within it moves
/// the data.
pub const SEGMENT_STEP: u32 = 0x1_0000;
/// The size of an entry of the PLT, in bytes.
pub const PLT_ENTRY_SIZE: u32 = 40;
/// Where in an entry of the PLT the call of the resolver begins, in bytes from the entry's start.
pub const LAZY_OFFSET: u32 = 24;
/// How many words, descriptors and slots the GOT may have.
pub const MAX_NEEDS: u32 = 65_536;
