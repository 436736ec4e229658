//! The fixups: words of the image that hold link addresses.

ghost use Rattle.std.specs.Prelude.{◌≡◌, ◌≤◌, ◌<◌, ◌^◌, ◌+◌, ◌*◌, List, length, All, IfSome, option_map};
ghost use Rattle.elf_model.specs.declared.table.Site.{Site};
ghost use Rattle.elf_model.specs.Sections as sections;
ghost use Rattle.elf_read.specs.parts.Fixups as spec;
ghost use Rattle.elf_read.specs.parts.HeaderTables.{IsFixupList};
ghost use Rattle.elf_read.specs.parts.Taken.{Has};
ghost use Rattle.elf_read.specs.parts.Passes.{Passes, Reads};

use crate::error::ReadErr;
use crate::sections::{fixups_of, rofixup_offset};
use crate::sites::Taken;
use elf_model::constants::EHDR_SIZE;
use elf_model::{ProgramHeader, Site};
use fd_base::Words;
use std::alloc::Global;

/// The tests of each fixup in turn. They stand in the file from an offset on.
#[tactic(auto, unfolding(crate::specs::parts::Fixups::fixup_tests))]
fn check_fixups(
    loads: &[ProgramHeader],
    taken: &mut Taken,
    offset: u32,
    fixups: &[u32],
) -> Result<(), ReadErr>
    requires below { All (λ h. h.vaddr + h.memsz < 2 ^ 32) loads.now }
    requires fits { offset + 4 * length fixups.now < 2 ^ 32 }
    ensures { (sites : List Site) → Has taken.old sites
        → Passes result (spec.fixup_tests loads.now sites offset fixups.now) }
{
    for (k, addr) in fixups.iter().enumerate() {
        let site = Site {
            addr: *addr,
            size: 4,
        };
        taken.fill(loads, &site, offset + 4 * k as u32)?;
    }
    Ok(())
}

/// The tests of the fixups that section `list` lists, and the fixups.
pub fn read_fixups(
    alloc: Global,
    bytes: &[u8],
    loads: &[ProgramHeader],
    taken: &mut Taken,
    list: Option<u16>,
) -> Result<Option<Words>, ReadErr>
    requires small { length bytes.now < 2 ^ 32 }
    requires long { EHDR_SIZE ≤ length bytes.now }
    requires list { IfSome list (IsFixupList bytes.now) }
    requires below { All (λ h. h.vaddr + h.memsz < 2 ^ 32) loads.now }
    ensures { (sites : List Site) → Has taken.old sites
        → Reads (λ f. f) result (spec.list_tests bytes.now loads.now sites list)
        (option_map (sections.fixups_of bytes.now) list) }
{
    let Some(i) = list else {
        return Ok(None);
    };
    let fixups = fixups_of(alloc, bytes, i)?;
    check_fixups(loads, taken, rofixup_offset(bytes, i), fixups.as_slice())?;
    Ok(Some(fixups))
}
