//! The bytes of the tables of an object.

ghost use Rattle.std.specs.Prelude.{◌≡◌, ◌++◌, ◌+◌, ◌^◌, ◌≤◌, ◌<◌, All, OnOk, Some, length, map};
ghost use Rattle.std.specs.List.{flat_map};
ghost use Rattle.elf_model.specs.declared.constants.TheConstants.{MAX_ENTRIES};
ghost use Rattle.fd_base.specs.Words.{word_bytes};
ghost use Rattle.elf_write.specs.Words as word;
ghost use Rattle.elf_write.specs.Strings.{name_bytes};
ghost use Rattle.elf_write.specs.TableSegment as spec;
ghost use Rattle.elf_write.specs.WritableObject.{IsWritableObject};
ghost use Rattle.elf_write.specs.parts.SmallObject.{IsObjectSmall};
ghost use Rattle.elf_write.specs.parts.ObjectSizes.{IsSymbolPacked, IsTableOrder};

use crate::entries::put_entries;
use crate::hash_table::put_hash;
use crate::rows::{aligned, put_rels, put_symbol, put_zeros};
use crate::strings::{name_size, place_of, put_name, put_symbol_strings, put_text};
use crate::table_layout::{TableLayout, strings_size};
use elf_model::constants::{SHN_ABS, SHN_UNDEF};
use elf_model::{Object, Place, Symbol};
use fd_base::{Bytes, Memory, Name};
use std::alloc::Global;

/// The index of a symbol's section.
fn index_of(place: Place) -> u16
    ensures { result ≡ spec.index_of place }
{
    match place {
        Place::Undefined => SHN_UNDEF,
        Place::Absolute => SHN_ABS,
        Place::Here => 1,
        Place::Common => SHN_UNDEF,
        Place::Section(_) => SHN_UNDEF,
        Place::Dropped => SHN_UNDEF,
    }
}

/// Puts the table of symbols.
fn put_dynamic_symbols(out: &mut Bytes, symbols: &[Symbol]) -> Result<(), Memory>
    requires few { length symbols.now ≤ MAX_ENTRIES }
    requires packed { All IsSymbolPacked symbols.now }
    ensures { OnOk result (out.new ≡ out.old ++ word.table_bytes (spec.symbol_rows 1 symbols.now)) }
{
    let mut at = 1;
    for symbol in symbols {
        let name = place_of(at, &symbol.name);
        put_symbol(out, name, index_of(symbol.place), symbol)?;
        at += name_size(&symbol.name);
    }
    Ok(())
}

/// Puts the strings of needed names.
fn put_needed_names(out: &mut Bytes, needed: &[Name]) -> Result<(), Memory>
    ensures { OnOk result (out.new ≡ out.old ++ flat_map name_bytes (map Some needed.now)) }
{
    for name in needed {
        put_text(out, name)?;
    }
    Ok(())
}

/// Puts the strings, with zeros behind them up to a multiple of 4.
#[tactic(auto, using(crate::proofs::TablesJoined::strings_joined))]
fn put_strings(out: &mut Bytes, object: &Object) -> Result<(), Memory>
    requires { IsObjectSmall object.now }
    ensures { OnOk result (out.new ≡ out.old ++ spec.padded (spec.name_strings object.entry.now)) }
{
    let size = u64::from(strings_size(object));
    put_symbol_strings(out, object.symbols.as_slice())?;
    put_name(out, &object.soname)?;
    put_needed_names(out, object.needed.as_slice())?;
    put_zeros(out, (aligned(4, size) - size) as u32)
}

/// Puts the fixups, and the GOT as their last.
fn put_fixups(out: &mut Bytes, object: &Object) -> Result<(), Memory>
    ensures { OnOk result (out.new ≡ out.old ++ word_bytes (spec.fixup_words object.entry.now)) }
{
    if let Some(fixups) = &object.fixups {
        out.push_words(fixups.as_slice())?;
        out.push_words(&[object.got])?;
    }
    Ok(())
}

/// Puts the tables in their order.
pub fn put_tables(
    alloc: Global,
    out: &mut Bytes,
    layout: &TableLayout,
    object: &Object,
) -> Result<(), Memory>
    requires writable { IsWritableObject object.now }
    requires small { IsObjectSmall object.now }
    requires layout { layout.now ≡ spec.layout_of object.now }
    requires order { IsTableOrder layout.now }
    requires fits { layout.now.dynamic < 2 ^ 32 }
    ensures { OnOk result (out.new ≡ out.old ++ spec.tables object.entry.now) }
{
    put_hash(alloc, out, object.symbols.as_slice())?;
    put_dynamic_symbols(out, object.symbols.as_slice())?;
    put_strings(out, object)?;
    put_rels(out, object.rels.as_slice())?;
    put_rels(out, object.jmprels.as_slice())?;
    put_fixups(out, object)?;
    put_entries(out, layout, object)
}
