//! What bytes are mapped as, and why an access is refused.

/// What a byte is mapped as.
#[derive(Clone, Copy, PartialEq, Eq)]
pub enum MemKind {
    /// Instructions. They are fetched and read, and always watched.
    Code,
    /// Read and written, and watched where it is marked.
    Data,
    /// Read alone: always watched.
    Fixed,
}

/// Why an access is refused, by the first of these that applies. Each has an address.
#[derive(Clone, Copy, Debug, PartialEq, Eq)]
pub enum Access {
    /// The address of the access, which is no multiple of its width.
    Unaligned(u32),
    /// The lowest byte of the access that isn't mapped, or isn't Code where it is fetched.
    Fault(u32),
    /// The lowest byte of a write that is watched.
    Stray(u32),
}
