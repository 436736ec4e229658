//! How a load or store finds its address.

/// The flags and the base register of an address. `p`: the offset counts before the access. `u`: it is
/// added. `w`: the address is written back.
#[derive(Clone, Copy, PartialEq, Eq)]
pub struct Addressing {
    pub p: bool,
    pub u: bool,
    pub w: bool,
    pub n: u8,
}
