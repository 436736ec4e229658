//! Operands, and whether their numbers fit. In the place of a number that doesn't fit stands 0.

use a32_isa::{Arg, HalfOff, MemOff, Op};

#[derive(Clone, Copy, Debug)]
pub struct FitShift {
    pub imm: u8,
    pub kind: u8,
    pub fits: bool,
}

#[derive(Clone, Copy)]
pub struct FitArg {
    pub arg: Arg,
    pub fits: bool,
}

/// An offset as it is written.
#[derive(Clone, Copy, Debug)]
pub enum Off {
    Number(u32),
    Register(u8),
    Shifted { m: u8, by: FitShift },
}

/// The same, with its sign.
#[derive(Clone, Copy, Debug)]
pub struct SignedOff {
    pub up: bool,
    pub off: Off,
}

/// An address as it is written.
#[derive(Clone, Copy, Debug)]
pub struct Address {
    pub p: bool,
    pub up: bool,
    pub w: bool,
    pub n: u8,
    pub off: Off,
}

#[derive(Clone, Copy)]
pub struct FitMemOff {
    pub off: MemOff,
    pub fits: bool,
}

#[derive(Clone, Copy)]
pub struct FitHalfOff {
    pub off: HalfOff,
    pub fits: bool,
}

/// A register and an immediate of 16 bits.
#[derive(Clone, Copy, Debug)]
pub struct FitWide {
    pub d: u8,
    pub imm16: u16,
    pub fits: bool,
}

/// An operation.
#[derive(Clone, Copy)]
pub struct Draft {
    pub op: Op,
    pub fits: bool,
}
