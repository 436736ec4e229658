//! The tests of sizes.

ghost use Rattle.std.specs.Prelude.{◌≡◌, ◌^◌, nat_le, false, [], ◌∷◌, ◌++◌, None};
ghost use Rattle.elf_model.specs.Test.{first_failing};
ghost use Rattle.elf_write.specs.ObjectFile.{object_file};
ghost use Rattle.elf_write.specs.TableSegment as spec;
ghost use Rattle.elf_write.specs.WritableObject.{IsWritableObject};
ghost use Rattle.link_model.specs.Refusals as refusals;
ghost use Rattle.link_model.specs.Targets.{refuses};
ghost use Rattle.link_model.specs.declared.error.LinkRefusal.TheVariants.{TooLarge};
ghost use Rattle.link_model.specs.parts.Passes.{Passes, Gives};
ghost use Rattle.fdpic_link.specs.parts.Large as parts;
ghost use Rattle.fdpic_link.specs.parts.Large.{AreNamed, EndsBelow, needed_tests, table_tests, file_tests};

use elf_model::Object;
use elf_model::constants::{MAX_ENTRIES, MAX_NEEDED};
use elf_write::{WriteErr, table_end, write_object};
use fd_base::Bytes;
use link_model::{Libs, LinkErr, LinkRefusal, Mode};
use link_places::Layout;
use std::alloc::Global;

fn refuse_large(fails: bool) -> Result<(), LinkErr>
    ensures { Passes result (refuses TooLarge fails ∷ []) }
{
    if fails {
        return Err(LinkErr::Refused(LinkRefusal::TooLarge));
    }
    Ok(())
}

/// Refuses a link over too many libraries. A program that stands alone needs none.
pub(crate) fn check_needed(mode: Mode, libs: &Libs) -> Result<(), LinkErr>
    ensures { Passes result (needed_tests mode libs.now) }
{
    match mode {
        Mode::Static => Ok(()),
        Mode::Program | Mode::Shared => refuse_large(MAX_NEEDED < libs.len()),
    }
}

/// Refuses a layout that passes 32 bits.
pub(crate) fn check_memory(layout: &Layout) -> Result<(), LinkErr>
    ensures { EndsBelow result layout.now.mode layout.now.text.inputs.now }
{
    refuse_large((1 << 32) <= layout.data_end())
}

/// Whether a table of an object is too long to be read again.
fn is_crowded(object: &Object) -> bool
    ensures { result ≡ refusals.is_crowded object.entry.now }
{
    MAX_ENTRIES < object.symbols.len()
        || MAX_ENTRIES < object.rels.len()
        || MAX_ENTRIES < object.jmprels.len()
}

/// Whether an object has so many fixups that no memory of 32 bits holds their list.
fn has_many_fixups(object: &Object) -> bool
    ensures { result ≡ parts.has_many_fixups object.entry.now }
{
    match &object.fixups {
        Some(fixups) => (1 << 32) <= fixups.len() as u64,
        None => false,
    }
}

/// Whether the tables of an object would pass 32 bits.
fn ends_beyond(object: &Object) -> bool
    requires named { AreNamed object.now }
    requires few { refusals.is_crowded object.now ≡ false }
    ensures { result ≡ nat_le (2 ^ 32) (spec.table_end object.entry.now) }
{
    has_many_fixups(object) || (1 << 32) <= table_end(object)
}

/// Refuses an object with a table that is too long to be read again, and one that has no room for its tables.
fn check_tables(object: &Object) -> Result<(), LinkErr>
    requires { AreNamed object.now }
    ensures { Passes result (table_tests object.entry.now) }
{
    refuse_large(is_crowded(object))?;
    refuse_large(ends_beyond(object))
}

/// The file of an object, where it isn't too long.
fn write_file(alloc: Global, object: &Object) -> Result<Bytes, LinkErr>
    requires { IsWritableObject object.now }
    ensures { Gives result (file_tests object.entry.now) (λ bytes. bytes ≡ object_file object.entry.now) }
{
    match write_object(alloc, object) {
        Ok(bytes) => Ok(bytes),
        Err(WriteErr::TooLong(_)) => Err(LinkErr::Refused(LinkRefusal::TooLarge)),
        Err(WriteErr::Memory) => Err(LinkErr::Memory),
    }
}

/// The file of an object that can be written once its tables are tested. Refuses by `TooLarge` what passes a limit.
#[tactic(auto, using(elf_model::proofs::Tests::passed_over, elf_model::proofs::Tests::fails_first))]
pub(crate) fn file_of(alloc: Global, object: &Object) -> Result<Bytes, LinkErr>
    requires named { AreNamed object.now }
    requires writable { first_failing (table_tests object.now) ≡ None → IsWritableObject object.now }
    ensures { Gives result (table_tests object.entry.now ++ file_tests object.entry.now) (λ bytes. bytes ≡ object_file object.entry.now) }
{
    check_tables(object)?;
    write_file(alloc, object)
}
