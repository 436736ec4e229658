//! One test of the format.

ghost use Rattle.std.specs.Prelude.{◌≡◌};
ghost use Rattle.elf_read.specs.parts.Passes.{Refuses};
ghost use Rattle.elf_read.specs.declared.error.ReadErr.TheVariants.{Refused};

use crate::error::ReadErr;
use elf_model::{ElfKind, ElfRefusal};

/// The refusal of this kind at an offset of the file.
pub fn refusal(kind: ElfKind, at: u32) -> ReadErr
    ensures { result ≡ Refused (record { kind = kind; at = at }) }
{
    ReadErr::Refused(ElfRefusal { kind, at })
}

/// The same, where a test fails.
pub fn refuse(fails: bool, kind: ElfKind, at: u32) -> Result<(), ReadErr>
    ensures { Refuses result fails kind at }
{
    if fails {
        Err(refusal(kind, at))
    } else {
        Ok(())
    }
}
