//! Why no file is written.

use std::alloc::AllocError;

/// Why no file is written.
#[derive(Clone, Copy, PartialEq, Eq)]
pub enum WriteErr {
    /// The file would have so many bytes, which are too many.
    TooLong(u64),
    /// Memory is wanted.
    Memory,
}

impl From<AllocError> for WriteErr {
    ghost use Rattle.std.specs.Prelude.{◌≡◌};
    ghost use Rattle.elf_write.specs.declared.error.WriteErr.TheVariants.{Memory};

    ghost from_gives = { λ _ e. e ≡ Memory };

    fn from(_error: AllocError) -> Self {
        WriteErr::Memory
    }
}
