use elf_model::ElfRefusal;
use std::alloc::{AllocError, AllocFailed};

/// Why bytes are not read.
#[derive(Clone, Copy, PartialEq, Eq)]
pub enum ReadErr {
    /// They are no object. This is the first test that they fail.
    Refused(ElfRefusal),
    /// Memory is wanted.
    Memory,
}

impl From<AllocError> for ReadErr {
    ghost use Rattle.std.specs.Prelude.{◌≡◌};
    ghost use Rattle.elf_read.specs.declared.error.ReadErr.TheVariants.{Memory};

    ghost from_gives = { λ _ e. e ≡ Memory };

    fn from(_error: AllocError) -> Self {
        ReadErr::Memory
    }
}

impl<T: Drop> From<AllocFailed<T>> for ReadErr {
    ghost use Rattle.std.specs.Prelude.{◌≡◌};
    ghost use Rattle.elf_read.specs.declared.error.ReadErr.TheVariants.{Memory};

    ghost from_gives = { λ _ e. e ≡ Memory };

    fn from(_error: AllocFailed<T>) -> Self {
        ReadErr::Memory
    }
}
