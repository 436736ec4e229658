//! What a mnemonic says.

ghost use Rattle.std.specs.Prelude.{◌≡◌};
ghost use Rattle.a32_isa.specs.Registers.{is_comparison, is_move};

/// What it says but for its condition. The numbers are those of `Op`.
#[derive(Clone, Copy, Debug)]
pub enum Head {
    Data { op: u8, s: bool },
    Mul { s: bool },
    Mla { s: bool },
    Long { kind: u8, s: bool },
    Clz,
    Movw,
    Movt,
    Nop,
    Mem { load: bool, byte: bool },
    Half { kind: u8 },
    Multi { load: bool, p: bool, u: bool },
    /// `push` and `pop`.
    Stack { load: bool },
    Branch { link: bool },
    Bx,
    Blx,
    Svc,
}

#[derive(Clone, Copy, Debug)]
pub struct Mnemonic {
    pub head: Head,
    pub cond: u8,
}

/// Whether a data operation sets the flags and writes no register.
pub(crate) fn is_comparison(op: u8) -> bool
    ensures { result ≡ is_comparison op }
{
    8 <= op && op <= 11
}

/// Whether a data operation reads no first operand.
pub(crate) fn is_move(op: u8) -> bool
    ensures { result ≡ is_move op }
{
    op == 13 || op == 15
}
