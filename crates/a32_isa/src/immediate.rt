//! The constants that a data operation can hold: a byte rotated right by an even number of bits.

ghost use Rattle.std.specs.Prelude.{◌≡◌, ◌<◌};
ghost use Rattle.a32_isa.specs.Immediate.{constant_of, gives, is_lowest};

/// A byte rotated right by twice `rot`.
#[tactic(auto, unfolding(crate::specs::Immediate::constant_of))]
pub fn constant_of(rot: u8, imm: u8) -> u32
    requires { rot < 16 }
    ensures { result ≡ constant_of rot imm }
{
    (imm as u32).rotate_right(2 * rot as u32)
}

/// Whether a byte rotated right by twice `rot` is the number.
#[tactic(auto, unfolding(crate::specs::Immediate::gives))]
pub fn gives(n: u32, rot: u8) -> bool
    requires { rot < 16 }
    ensures { result ≡ gives n rot }
{
    n.rotate_left(2 * rot as u32) < 256
}

/// Whether no lower rotation gives the number.
#[tactic(auto, unfolding(crate::specs::Immediate::is_lowest))]
pub fn is_lowest(n: u32, rot: u8) -> bool
    requires { rot < 16 }
    ensures { result ≡ is_lowest n rot }
{
    (0..rot).all(|lower| !gives(n, lower))
}
