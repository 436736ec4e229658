//! Which relocatable files can be written.

ghost use Rattle.std.specs.Prelude.{◌≡◌, ◌↔◌, IsTrue};
ghost use Rattle.elf_model.specs.RelSound.{IsRelSound};
ghost use Rattle.elf_write.specs.WritableRel.{IsWritableRel};

use crate::limits::MAX_WRITTEN_SECTIONS;
use elf_model::constants::MAX_ENTRIES;
use elf_model::{Place, RelObject};

/// Whether a file that a reader accepted can be written: it may be without the null symbol, have a symbol whose section
/// was dropped, or have too many sections, or too many relocations of one section.
pub fn is_writable_rel(object: &RelObject) -> bool
    requires { IsRelSound object.now }
    ensures { IsTrue result ↔ IsWritableRel object.now }
{
    let sections = object.sections.as_slice();
    let symbols = object.symbols.as_slice();
    !symbols.is_empty()
        && symbols.iter().all(|s| s.place != Place::Dropped)
        && sections.len() <= MAX_WRITTEN_SECTIONS as usize
        && sections.iter().all(|s| s.rels.len() <= MAX_ENTRIES)
}
