//! Sums with their carry and overflow.

ghost use Rattle.std.specs.Prelude.{◌≡◌, ◌&&◌, not};
ghost use Rattle.a32_machine.specs.Bits.{bit_of};
ghost use Rattle.a32_machine.specs.Condition.{same};
ghost use Rattle.a32_machine.specs.Arithmetic as spec;

use crate::shifter::bit_of;

/// What a data operation gives: its value, and the flags C and V that go with it.
#[derive(Clone, Copy, PartialEq, Eq)]
pub struct Outcome {
    pub value: u32,
    pub carry: bool,
    pub overflow: bool,
}

/// Two words of one sign whose sum has the other one.
#[inline(always)]
fn overflows(a: u32, b: u32, sum: u32) -> bool
    ensures { result ≡ (same (bit_of a 31) (bit_of b 31) && not (same (bit_of a 31) (bit_of sum 31))) }
{
    let sign = bit_of(a, 31);
    sign == bit_of(b, 31) && sign != bit_of(sum, 31)
}

/// The sum of two words and a carry.
#[inline(always)]
pub fn added(a: u32, b: u32, carry_in: bool) -> Outcome
    ensures { result ≡ spec.added a b carry_in }
{
    let sum = a as u64 + b as u64 + carry_in as u64;
    let value = (sum % 0x1_0000_0000) as u32;
    Outcome {
        value,
        carry: value as u64 != sum,
        overflow: overflows(a, b, value),
    }
}
