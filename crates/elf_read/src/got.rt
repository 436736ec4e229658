//! The GOT.

ghost use Rattle.std.specs.Prelude.{◌≡◌, ◌≤◌, ◌<◌, ◌^◌, [], ◌∷◌, length, IfOk, IfSome, false, true, not, option_map, unwrap_or};
ghost use Rattle.std.specs.Option.{option_map_or, option_or};
ghost use Rattle.elf_model.specs.declared.refusal.ElfKind.TheVariants as kinds;
ghost use Rattle.elf_model.specs.Test.{refuses};
ghost use Rattle.elf_model.specs.Sections.{listed_got};
ghost use Rattle.elf_model.specs.Dynamic.{value_of};
ghost use Rattle.elf_model.specs.Fields.{is_got_place};
ghost use Rattle.elf_read.specs.parts.HeaderTables.{IsFixupList};
ghost use Rattle.elf_model.specs.Relocations.{is_in_place, got_header};
ghost use Rattle.elf_read.specs.parts.Passes.{Reads};

use crate::dynamic::value_of;
use crate::error::ReadErr;
use crate::refusals::refusal;
use crate::sections::listed_got;
use crate::sites::is_in_place;
use elf_model::constants::{DT_PLTGOT, EHDR_SIZE, GOT_HEADER_SIZE};
use elf_model::{DynEntry, ElfKind, ProgramHeader, Site};

/// The words of the GOT that the loader fills.
pub fn got_header(got: u32) -> Site
    ensures { result ≡ got_header got }
{
    Site {
        addr: got,
        size: GOT_HEADER_SIZE,
    }
}

/// The test of the GOT, whose faults are reported at an offset of the file.
#[tactic(auto, unfolding(elf_model::specs::Fields::is_got_place, elf_model::specs::Relocations::is_in_place))]
pub fn check_got(loads: &[ProgramHeader], got: Option<u32>, offset: u32) -> Result<u32, ReadErr>
    ensures tests { Reads (λ g. g) result
        (refuses kinds.NoGot offset (not (option_map_or (is_got_place loads.now) got false)) ∷ [])
        (unwrap_or got 0) }
    ensures in_place { IfOk result (λ g. is_in_place loads.now (got_header g) ≡ true) }
{
    match got {
        None => Err(refusal(ElfKind::NoGot, offset)),
        Some(addr) => {
            if is_in_place(loads, &got_header(addr)) {
                Ok(addr)
            } else {
                Err(refusal(ElfKind::NoGot, offset))
            }
        }
    }
}

/// The link address of the GOT: the value of DT_PLTGOT, or else the last word of the list of fixups.
pub fn got_of(bytes: &[u8], entries: &[DynEntry], list: Option<u16>) -> Option<u32>
    requires small { length bytes.now < 2 ^ 32 }
    requires long { EHDR_SIZE ≤ length bytes.now }
    requires list { IfSome list (IsFixupList bytes.now) }
    ensures { result ≡ option_or (value_of DT_PLTGOT entries.now) (option_map (listed_got bytes.now) list) }
{
    match value_of(DT_PLTGOT, entries) {
        Some(addr) => Some(addr),
        None => match list {
            None => None,
            Some(i) => Some(listed_got(bytes, i)),
        },
    }
}
