//! The bytes of a relocatable file, part by part.

ghost use Rattle.std.specs.Prelude.{◌≡◌, ◌++◌, ◌+◌, ◌-◌, ◌^◌, ◌≤◌, ◌<◌, ◌||◌, ◌==◌, true, OnOk, All, length};
ghost use Rattle.std.specs.List.{flat_map};
ghost use Rattle.elf_model.specs.declared.constants.TheConstants.{EHDR_SIZE, MAX_ENTRIES};
ghost use Rattle.elf_model.specs.RelSound.{is_place_among};
ghost use Rattle.elf_write.specs.declared.limits.TheConstants.{MAX_WRITTEN_SECTIONS};
ghost use Rattle.elf_write.specs.Words as word;
ghost use Rattle.elf_write.specs.Strings.{strings};
ghost use Rattle.elf_write.specs.RelFile as spec;
ghost use Rattle.elf_write.specs.Writes.{Writes};
ghost use Rattle.elf_write.specs.WritableRel.{IsWritableRel};
ghost use Rattle.elf_write.specs.parts.Sizes.{IsSmall, AreSmall, IsPacked, IsLayoutSmall};

use crate::error::WriteErr;
use crate::header::FileHeader;
use crate::limits::MAX_FILE_BYTES;
use crate::rel_headers::put_headers;
use crate::rel_layout::{RelLayout, end_of, file_size, layout_of};
use crate::rows::{aligned, put_header, put_rels, put_symbol, put_zeros};
use crate::strings::{TABLE_NAMES, name_size, place_of, put_name, put_symbol_strings};
use elf_model::constants::{EHDR_SIZE, ET_REL, SHN_ABS, SHN_COMMON, SHN_UNDEF};
use elf_model::{Place, RelObject, RelSection, Symbol};
use fd_base::{Bytes, Memory};
use std::alloc::Global;

/// The ELF header of a file whose parts stand there.
fn file_header(layout: &RelLayout) -> FileHeader
    requires small { IsLayoutSmall layout.now }
    requires fits { layout.now.headers < 2 ^ 32 }
    ensures { result ≡ spec.file_header layout.now }
{
    FileHeader {
        kind: ET_REL,
        entry: 0,
        phoff: 0,
        phnum: 0,
        shoff: layout.headers as u32,
        shnum: layout.symtab as u16 + 3,
        shstrndx: layout.symtab as u16 + 2,
    }
}

/// Puts the bytes of a section, with zeros before them where it would begin at an offset.
fn put_content(out: &mut Bytes, at: u64, section: &RelSection) -> Result<(), Memory>
    requires small { IsSmall section.now }
    requires fits { at < 2 ^ 40 }
    ensures { OnOk result (out.new ≡ out.old ++ (word.zeros (word.aligned section.now.align at - at) ++ section.now.filled)) }
{
    put_zeros(out, (aligned(section.align, at) - at) as u32)?;
    out.extend_from_slice(section.filled.as_slice())
}

/// Puts the bytes of sections.
fn put_contents(out: &mut Bytes, sections: &[RelSection]) -> Result<(), Memory>
    requires { AreSmall sections.now }
    ensures { OnOk result (out.new ≡ out.old ++ spec.contents EHDR_SIZE sections.now) }
{
    let mut at = u64::from(EHDR_SIZE);
    for section in sections {
        put_content(out, at, section)?;
        at = end_of(at, section);
    }
    Ok(())
}

/// Puts the tables of relocations of sections.
fn put_tables(out: &mut Bytes, sections: &[RelSection]) -> Result<(), Memory>
    requires { All (λ s. All (λ r. r.symbol < 2 ^ 24) s.rels) sections.now }
    ensures { OnOk result (out.new ≡ out.old ++ flat_map spec.rel_bytes sections.now) }
{
    for section in sections {
        put_rels(out, section.rels.as_slice())?;
    }
    Ok(())
}

/// The index of a symbol's section: kept sections stand behind the null section.
fn index_of(place: Place) -> u16
    requires { is_place_among MAX_WRITTEN_SECTIONS place ≡ true }
    ensures { result ≡ spec.index_of place }
{
    match place {
        Place::Undefined => SHN_UNDEF,
        Place::Absolute => SHN_ABS,
        Place::Here => SHN_UNDEF,
        Place::Common => SHN_COMMON,
        Place::Section(i) => i as u16 + 1,
        Place::Dropped => SHN_UNDEF,
    }
}

/// Puts the table of symbols.
fn put_symbols(out: &mut Bytes, symbols: &[Symbol]) -> Result<(), Memory>
    requires few { length symbols.now ≤ MAX_ENTRIES }
    requires packed { All IsPacked symbols.now }
    ensures { OnOk result (out.new ≡ out.old ++ word.table_bytes (spec.symbol_rows 1 symbols.now)) }
{
    let mut at = 1;
    for symbol in symbols {
        let name = place_of(at, &symbol.name);
        put_symbol(out, name, index_of(symbol.place), symbol)?;
        at += name_size(&symbol.name);
    }
    Ok(())
}

/// Puts the names of sections and those of the tables.
#[tactic(auto, using(crate::proofs::Placed::section_strings_are))]
fn put_section_strings(out: &mut Bytes, sections: &[RelSection]) -> Result<(), Memory>
    ensures { OnOk result (out.new ≡ out.old ++ strings (spec.names_of sections.now ++ spec.table_names)) }
{
    out.push(0)?;
    for section in sections {
        put_name(out, &section.name)?;
    }
    out.extend_from_slice(&TABLE_NAMES)
}

/// Puts the parts of the file in their order.
#[tactic(auto, unfolding(crate::specs::RelFile::rel_file))]
fn put_file(out: &mut Bytes, object: &RelObject, layout: &RelLayout) -> Result<(), Memory>
    requires writable { IsWritableRel object.now }
    requires layout { layout.now ≡ spec.layout_of object.now }
    requires small { IsLayoutSmall layout.now }
    requires fits { layout.now.headers < 2 ^ 32 }
    ensures { OnOk result (out.new ≡ out.old ++ spec.rel_file object.now) }
{
    let sections = object.sections.as_slice();
    let symbols = object.symbols.as_slice();
    put_header(out, &file_header(layout))?;
    put_contents(out, sections)?;
    put_tables(out, sections)?;
    put_symbols(out, symbols)?;
    put_symbol_strings(out, symbols)?;
    put_section_strings(out, sections)?;
    put_headers(out, object, layout)
}

/// The bytes of a relocatable file. `TooLong` comes exactly where they would be more than `MAX_FILE_BYTES`, with how many
/// they would be.
pub fn write_rel_object(alloc: Global, object: &RelObject) -> Result<Bytes, WriteErr>
    requires { IsWritableRel object.now }
    ensures { Writes result (spec.rel_file object.now) }
{
    let layout = layout_of(object);
    let size = file_size(&layout);
    if u64::from(MAX_FILE_BYTES) < size {
        return Err(WriteErr::TooLong(size));
    }
    let mut out = Bytes::new(alloc);
    put_file(&mut out, object, &layout)?;
    Ok(out)
}
