//! The registers and flags, and how a step ends.

/// The registers and the flags. `r[15]` is the address of the next instruction, a multiple of 4.
#[derive(Clone, Copy, PartialEq, Eq)]
pub struct Cpu {
    pub r: [u32; 16],
    /// Negative: bit 31 of the last result that set the flags.
    pub n: bool,
    /// That result was zero.
    pub z: bool,
    /// A carry out, no borrow, or the last bit that was shifted out.
    pub c: bool,
    /// Signed overflow.
    pub v: bool,
}

/// Why an instruction stops. It changes nothing then.
#[derive(Clone, Copy, PartialEq, Eq)]
pub enum StepStop {
    /// The lowest byte of a store that is watched.
    Stray(u32),
    /// The lowest byte that isn't mapped, or isn't Code where it is fetched.
    Fault(u32),
    /// The word, which is no instruction.
    Undefined(u32),
    /// The address of an access that isn't a multiple of its width, or a new r15 that isn't a multiple of 4.
    Unaligned(u32),
}

/// How a step ends.
#[derive(Clone, Copy, PartialEq, Eq)]
pub enum StepEnd {
    /// The next instruction can be obeyed.
    Next,
    /// The supervisor is called, with the number of the instruction. `r[15]` stands behind it.
    Service(u32),
    /// The instruction stops.
    Stop(StepStop),
}
