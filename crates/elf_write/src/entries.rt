//! The entries of the dynamic section of a written object.

ghost use Rattle.std.specs.Prelude.{◌≡◌, ◌++◌, ◌∷◌, [], ◌+◌, ◌^◌, ◌≤◌, ◌<◌, All, OnOk, length};
ghost use Rattle.elf_model.specs.declared.constants.TheConstants.{MAX_ENTRIES, MAX_NEEDED};
ghost use Rattle.elf_model.specs.RelSound.{IsNameText};
ghost use Rattle.elf_write.specs.TableSegment as spec;
ghost use Rattle.elf_write.specs.parts.SmallObject.{IsObjectSmall};
ghost use Rattle.elf_write.specs.parts.ObjectSizes.{entry_bytes, IsTableOrder};

use crate::strings::{symbol_strings_size, text_size};
use crate::table_layout::{TableLayout, needed_place, strings_size};
use elf_model::constants::{
    DT_BIND_NOW, DT_FINI, DT_FINI_ARRAY, DT_FINI_ARRAYSZ, DT_HASH, DT_INIT, DT_INIT_ARRAY,
    DT_INIT_ARRAYSZ, DT_JMPREL, DT_NEEDED, DT_NULL, DT_PLTGOT, DT_PLTREL, DT_PLTRELSZ, DT_REL,
    DT_RELENT, DT_RELSZ, DT_SONAME, DT_STRSZ, DT_STRTAB, DT_SYMBOLIC, DT_SYMENT, DT_SYMTAB,
    REL_SIZE, SYM_SIZE,
};
use elf_model::{Extent, Inits, Object, Rel};
use fd_base::{Bytes, Memory, Name};

/// An entry (gABI, "Dynamic Section").
#[derive(Clone, Copy)]
pub struct Entry {
    /// `DT_NEEDED` and the like.
    pub tag: u32,
    /// A link address, a size in bytes or another number, by the tag.
    pub value: u32,
}

/// Puts an entry.
fn put_entry(out: &mut Bytes, tag: u32, value: u32) -> Result<(), Memory>
    ensures { OnOk result (out.new ≡ out.old ++ entry_bytes (spec.entry tag value ∷ [])) }
{
    out.push_words(&[tag, value])
}

/// Puts an entry where there is a value.
fn put_entry_if(out: &mut Bytes, tag: u32, value: Option<u32>) -> Result<(), Memory>
    ensures { OnOk result (out.new ≡ out.old ++ entry_bytes (spec.entry_if tag value)) }
{
    match value {
        Some(value) => put_entry(out, tag, value),
        None => Ok(()),
    }
}

/// Puts an entry without a value where a flag is set.
fn put_flag_if(out: &mut Bytes, tag: u32, flag: bool) -> Result<(), Memory>
    ensures { OnOk result (out.new ≡ out.old ++ entry_bytes (spec.flag_if tag flag)) }
{
    if flag { put_entry(out, tag, 0) } else { Ok(()) }
}

/// Puts the entries of needed names, the first of which begins at an offset of the strings.
fn put_needed(out: &mut Bytes, place: u32, needed: &[Name]) -> Result<(), Memory>
    requires few { length needed.now ≤ MAX_NEEDED }
    requires named { All IsNameText needed.now }
    requires near { place ≤ 2 ^ 26 }
    ensures { OnOk result (out.new ≡ out.old ++ entry_bytes (spec.needed_entries place needed.now)) }
{
    let mut at = place;
    for name in needed {
        put_entry(out, DT_NEEDED, at)?;
        at += text_size(name);
    }
    Ok(())
}

/// Puts the entries of the relocations of DT_REL, which begin at a link address.
fn put_rel_entries(out: &mut Bytes, at: u32, rels: &[Rel]) -> Result<(), Memory>
    requires { length rels.now ≤ MAX_ENTRIES }
    ensures { OnOk result (out.new ≡ out.old ++ entry_bytes (spec.rel_entries at rels.now)) }
{
    if rels.is_empty() {
        return Ok(());
    }
    let size = REL_SIZE * rels.len() as u32;
    out.push_words(&[DT_REL, at, DT_RELSZ, size, DT_RELENT, REL_SIZE])
}

/// Puts the entries of the relocations of the slots, which begin at a link address.
fn put_slot_entries(out: &mut Bytes, at: u32, slots: &[Rel]) -> Result<(), Memory>
    requires { length slots.now ≤ MAX_ENTRIES }
    ensures { OnOk result (out.new ≡ out.old ++ entry_bytes (spec.slot_entries at slots.now)) }
{
    if slots.is_empty() {
        return Ok(());
    }
    let size = REL_SIZE * slots.len() as u32;
    out.push_words(&[DT_JMPREL, at, DT_PLTRELSZ, size, DT_PLTREL, DT_REL])
}

/// Puts the entries of an array where there is one.
fn put_array(
    out: &mut Bytes,
    addr_tag: u32,
    size_tag: u32,
    array: Option<Extent>,
) -> Result<(), Memory>
    ensures { OnOk result (out.new ≡ out.old ++ entry_bytes (spec.array_entries addr_tag size_tag array)) }
{
    match array {
        Some(array) => out.push_words(&[addr_tag, array.addr, size_tag, array.size]),
        None => Ok(()),
    }
}

/// Puts the entries of the names of objects.
fn put_name_entries(out: &mut Bytes, object: &Object) -> Result<(), Memory>
    requires { IsObjectSmall object.now }
    ensures { OnOk result (out.new ≡ out.old ++ entry_bytes (spec.name_entries object.entry.now)) }
{
    put_needed(out, needed_place(object), object.needed.as_slice())?;
    match &object.soname {
        Some(_) => put_entry(
            out,
            DT_SONAME,
            symbol_strings_size(object.symbols.as_slice()),
        ),
        None => Ok(()),
    }
}

/// Puts the entries of the tables.
fn put_table_entries(out: &mut Bytes, layout: &TableLayout, object: &Object) -> Result<(), Memory>
    requires small { IsObjectSmall object.now }
    requires order { IsTableOrder layout.now }
    requires fits { layout.now.dynamic < 2 ^ 32 }
    ensures { OnOk result (out.new ≡ out.old ++ entry_bytes (spec.table_entries layout.now object.entry.now)) }
{
    put_entry(out, DT_HASH, layout.hash as u32)?;
    put_entry(out, DT_STRTAB, layout.strings as u32)?;
    put_entry(out, DT_STRSZ, strings_size(object))?;
    put_entry(out, DT_SYMTAB, layout.symbols as u32)?;
    put_entry(out, DT_SYMENT, SYM_SIZE)?;
    put_rel_entries(out, layout.rels as u32, object.rels.as_slice())?;
    put_slot_entries(out, layout.jmprels as u32, object.jmprels.as_slice())
}

/// Puts the entries of what is to be called at the start and the end.
fn put_init_entries(out: &mut Bytes, inits: &Inits) -> Result<(), Memory>
    ensures { OnOk result (out.new ≡ out.old ++ entry_bytes (spec.init_entries inits.now)) }
{
    put_entry_if(out, DT_INIT, inits.init)?;
    put_entry_if(out, DT_FINI, inits.fini)?;
    put_array(out, DT_INIT_ARRAY, DT_INIT_ARRAYSZ, inits.init_array)?;
    put_array(out, DT_FINI_ARRAY, DT_FINI_ARRAYSZ, inits.fini_array)
}

/// Puts the entries of the GOT, of flags, and of what is to be called.
fn put_other_entries(out: &mut Bytes, object: &Object) -> Result<(), Memory>
    ensures { OnOk result (out.new ≡ out.old ++ entry_bytes (spec.other_entries object.entry.now)) }
{
    put_entry(out, DT_PLTGOT, object.got)?;
    put_flag_if(out, DT_SYMBOLIC, object.symbolic)?;
    put_flag_if(out, DT_BIND_NOW, object.now)?;
    put_init_entries(out, &object.inits)
}

/// Puts the entries and the NULL behind them.
pub fn put_entries(out: &mut Bytes, layout: &TableLayout, object: &Object) -> Result<(), Memory>
    requires small { IsObjectSmall object.now }
    requires layout { layout.now ≡ spec.layout_of object.now }
    requires order { IsTableOrder layout.now }
    requires fits { layout.now.dynamic < 2 ^ 32 }
    ensures { OnOk result (out.new ≡ out.old ++ entry_bytes (spec.entries object.entry.now ++ spec.null_entry ∷ [])) }
{
    put_name_entries(out, object)?;
    put_table_entries(out, layout, object)?;
    put_other_entries(out, object)?;
    put_entry(out, DT_NULL, 0)
}
