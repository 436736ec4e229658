//! Fields of words.

ghost use Rattle.std.specs.Prelude.{◌≡◌, ◌<◌, ◌^◌};
ghost use Rattle.a32_isa.specs.Fields.{field, flag};

/// The bits from `low` up, `width` of them.
#[inline]
#[tactic(auto, using(std::proofs::lemmas::Nat::one_shl, std::proofs::lemmas::Nat::pow_pos))]
pub fn field(word: u32, low: u8, width: u8) -> u32
    requires low { low < 32 }
    requires width { width < 32 }
    ensures value { result ≡ field word low width }
    ensures fits { result < 2 ^ width }
{
    (word >> low) % (1 << width)
}

/// The same of at most 8 bits.
#[inline]
pub fn small_field(word: u32, low: u8, width: u8) -> u8
    requires low { low < 32 }
    requires width { width < 9 }
    ensures { result ≡ field word low width }
{
    field(word, low, width) as u8
}

/// One bit.
#[inline]
pub fn flag(word: u32, low: u8) -> bool
    requires { low < 32 }
    ensures { result ≡ flag word low }
{
    field(word, low, 1) == 1
}
