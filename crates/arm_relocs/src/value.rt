//! The words that relocations fill in.

ghost use Rattle.std.specs.Prelude.{◌≡◌};
ghost use Rattle.arm_relocs.specs.Value as spec;

use elf_model::constants::{
    R_ARM_ABS32, R_ARM_GLOB_DAT, R_ARM_GOTOFF32, R_ARM_REL32, R_ARM_TARGET1,
};

/// The word of a relocation, modulo 2^32, for the symbol's address `s`, the addend `a`, the address `p` of the
/// site and that of the GOT. None exactly for a kind that fills no such word.
pub fn apply_value(kind: u8, s: u32, a: u32, p: u32, got: u32) -> Option<u32>
    ensures { result ≡ spec.apply_value kind s a p got }
{
    let sum = s.wrapping_add(a);
    match kind {
        R_ARM_ABS32 | R_ARM_TARGET1 | R_ARM_GLOB_DAT => Some(sum),
        R_ARM_REL32 => Some(sum.wrapping_sub(p)),
        R_ARM_GOTOFF32 => Some(sum.wrapping_sub(got)),
        _ => None,
    }
}
