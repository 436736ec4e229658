//! The entries of load maps.

/// Where one segment of a module lies: `memsz` bytes with the link addresses from `vaddr` on, placed from
/// `addr` on.
#[derive(Clone, Copy, Debug, PartialEq, Eq)]
pub struct MapEntry {
    /// The placed address of the segment's first byte.
    pub addr: u32,
    /// The link address of the segment's first byte.
    pub vaddr: u32,
    /// The size of the segment in memory, in bytes.
    pub memsz: u32,
}
