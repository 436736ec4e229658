//! Why a text is refused.

use a32_text::AsmKind;
use std::alloc::AllocError;

/// The first refusal of a text. The first line has number 1.
#[derive(Clone, Copy, Debug, PartialEq, Eq)]
pub struct AsmRefusal {
    pub line: u32,
    pub kind: AsmKind,
}

/// Why no file is assembled.
#[derive(Clone, Copy, Debug, PartialEq, Eq)]
pub enum AsmErr {
    /// The text is refused.
    Refused(AsmRefusal),
    /// The file would have so many bytes, which are too many.
    TooLong(u32),
    /// Memory is wanted.
    Memory,
}

/// Why a line is not taken.
#[derive(Clone, Copy)]
pub(crate) enum LineErr {
    /// This is wrong with it.
    Refused(AsmKind),
    /// Memory is wanted.
    Memory,
}

impl From<AllocError> for LineErr {
    ghost use Rattle.std.specs.Prelude.{◌≡◌};
    ghost use Rattle.a32_asm.specs.declared.refusal.LineErr.TheVariants.{Memory};

    ghost from_gives = { λ _ e. e ≡ Memory };

    fn from(_error: AllocError) -> Self {
        LineErr::Memory
    }
}

impl LineErr {
    ghost use Rattle.std.specs.Prelude.{◌≡◌};
    ghost use Rattle.a32_asm.specs.parts.Answers.{err_at};

    /// The same of the line with this number.
    pub(crate) fn at(self, line: u32) -> AsmErr
        ensures { result ≡ err_at line self }
    {
        match self {
            LineErr::Refused(kind) => AsmErr::Refused(AsmRefusal { line, kind }),
            LineErr::Memory => AsmErr::Memory,
        }
    }
}
