//! The section headers of a relocatable file.

ghost use Rattle.std.specs.Prelude.{◌≡◌, ◌++◌, ◌+◌, ◌*◌, ◌^◌, ◌≤◌, ◌<◌, OnOk, length, map};
ghost use Rattle.std.specs.List.{sum_by};
ghost use Rattle.elf_model.specs.declared.constants.TheConstants.{EHDR_SIZE, REL_SIZE, MAX_ENTRIES};
ghost use Rattle.elf_write.specs.Words.{section_row, table_bytes};
ghost use Rattle.elf_write.specs.Strings as string;
ghost use Rattle.elf_write.specs.RelFile as spec;
ghost use Rattle.elf_write.specs.parts.Sizes.{IsSmall, AreSmall, IsLayoutSmall};

use crate::rel_layout::{RelLayout, end_of, has_rels, names_end};
use crate::rows::{aligned, put_section_header};
use crate::strings::{name_size, place_of};
use elf_model::constants::{EHDR_SIZE, REL_SIZE, SHT_REL, SHT_STRTAB, SHT_SYMTAB, STB_LOCAL};
use elf_model::{RelObject, RelSection, SectionHeader, Symbol};
use fd_base::{Bytes, Memory};

/// The header of the null section.
fn null_header() -> SectionHeader
    ensures { result ≡ spec.null_header }
{
    SectionHeader {
        name: 0,
        kind: 0,
        flags: 0,
        addr: 0,
        offset: 0,
        size: 0,
        link: 0,
        info: 0,
        align: 0,
    }
}

/// The header of a kept section that would begin at an offset, and its name at one of the names.
fn kept_header(at: u64, name: u32, section: &RelSection) -> SectionHeader
    requires small { IsSmall section.now }
    requires fits { spec.end_of at section.now < 2 ^ 32 }
    ensures { result ≡ spec.kept_header at name section.now }
{
    SectionHeader {
        name: place_of(name, &section.name),
        kind: section.kind,
        flags: section.flags,
        addr: 0,
        offset: aligned(section.align, at) as u32,
        size: section.size,
        link: 0,
        info: 0,
        align: section.align,
    }
}

/// Puts the headers of kept sections.
fn put_kept_headers(out: &mut Bytes, sections: &[RelSection]) -> Result<(), Memory>
    requires small { AreSmall sections.now }
    requires fits { spec.end_of_all EHDR_SIZE sections.now < 2 ^ 32 }
    ensures { OnOk result (out.new ≡ out.old ++ table_bytes (map section_row (spec.kept_headers EHDR_SIZE 1 sections.now))) }
{
    let mut at = u64::from(EHDR_SIZE);
    let mut name = 1;
    for section in sections {
        put_section_header(out, &kept_header(at, name, section))?;
        at = end_of(at, section);
        name += name_size(&section.name);
    }
    Ok(())
}

/// The header of the relocations of the section of an index, which begin at an offset.
fn rel_header(symtab: u32, at: u64, i: u32, section: &RelSection) -> SectionHeader
    requires small { IsSmall section.now }
    requires fits { at < 2 ^ 32 }
    ensures { result ≡ spec.rel_header symtab at i section.now }
{
    SectionHeader {
        name: 0,
        kind: SHT_REL,
        flags: 0,
        addr: 0,
        offset: at as u32,
        size: REL_SIZE * section.rels.len() as u32,
        link: symtab,
        info: i,
        align: 4,
    }
}

/// Puts that header, where the section has relocations.
fn put_rel_header(
    out: &mut Bytes,
    symtab: u32,
    at: u64,
    i: u32,
    section: &RelSection,
) -> Result<(), Memory>
    requires small { IsSmall section.now }
    requires fits { at < 2 ^ 32 }
    ensures { OnOk result (out.new ≡ out.old ++ table_bytes (map section_row (spec.rel_header_if symtab at i section.now))) }
{
    if has_rels(section) {
        put_section_header(out, &rel_header(symtab, at, i, section))?;
    }
    Ok(())
}

/// Puts the headers of the tables of relocations, which begin at an offset.
fn put_rel_headers(
    out: &mut Bytes,
    symtab: u32,
    from: u64,
    sections: &[RelSection],
) -> Result<(), Memory>
    requires small { AreSmall sections.now }
    requires fits { from + REL_SIZE * sum_by (λ s. length s.rels) sections.now < 2 ^ 32 }
    ensures { OnOk result (out.new ≡ out.old ++ table_bytes (map section_row (spec.rel_headers symtab from 1 sections.now))) }
{
    let mut at = from;
    let mut i = 1;
    for section in sections {
        put_rel_header(out, symtab, at, i, section)?;
        at += u64::from(REL_SIZE) * section.rels.len() as u64;
        i += 1;
    }
    Ok(())
}

/// How many local symbols stand in front.
fn local_count(symbols: &[Symbol]) -> u32
    requires { length symbols.now ≤ MAX_ENTRIES }
    ensures { result ≡ spec.local_count symbols.now }
{
    let mut count = 0;
    for symbol in symbols {
        if symbol.binding != STB_LOCAL {
            return count;
        }
        count += 1;
    }
    count
}

/// The header of a table of strings.
fn strings_header(name: u32, from: u64, to: u64) -> SectionHeader
    requires ordered { from ≤ to }
    requires fits { to < 2 ^ 32 }
    ensures { result ≡ spec.strings_header name from to }
{
    SectionHeader {
        name,
        kind: SHT_STRTAB,
        flags: 0,
        addr: 0,
        offset: from as u32,
        size: (to - from) as u32,
        link: 0,
        info: 0,
        align: 1,
    }
}

/// The header of the table of symbols.
fn symbols_header(layout: &RelLayout, name: u32, locals: u32) -> SectionHeader
    requires small { IsLayoutSmall layout.now }
    requires fits { layout.now.headers < 2 ^ 32 }
    ensures { result ≡ spec.symbols_header layout.now name locals }
{
    SectionHeader {
        name,
        kind: SHT_SYMTAB,
        flags: 0,
        addr: 0,
        offset: layout.symbols as u32,
        size: (layout.strings - layout.symbols) as u32,
        link: layout.symtab + 1,
        info: locals,
        align: 4,
    }
}

/// Puts the headers of the three tables, whose names begin at an offset of the names.
fn put_table_headers(
    out: &mut Bytes,
    layout: &RelLayout,
    name: u32,
    locals: u32,
) -> Result<(), Memory>
    requires small { IsLayoutSmall layout.now }
    requires fits { layout.now.headers < 2 ^ 32 }
    requires named { name < 2 ^ 31 }
    ensures { OnOk result (out.new ≡ out.old ++ table_bytes (map section_row (spec.table_headers layout.now name locals))) }
{
    put_section_header(out, &symbols_header(layout, name, locals))?;
    put_section_header(out, &strings_header(name + 8, layout.strings, layout.names))?;
    put_section_header(
        out,
        &strings_header(name + 16, layout.names, layout.headers),
    )
}

/// Puts all section headers.
pub fn put_headers(out: &mut Bytes, object: &RelObject, layout: &RelLayout) -> Result<(), Memory>
    requires small { AreSmall object.now.sections }
    requires few { length object.now.symbols ≤ MAX_ENTRIES }
    requires layout { layout.now ≡ spec.layout_of object.now }
    requires ordered { IsLayoutSmall layout.now }
    requires fits { layout.now.headers < 2 ^ 32 }
    ensures { OnOk result (out.new ≡ out.old ++ table_bytes (map section_row (spec.headers_of object.now))) }
{
    let sections = object.sections.as_slice();
    put_section_header(out, &null_header())?;
    put_kept_headers(out, sections)?;
    put_rel_headers(out, layout.symtab, layout.rels, sections)?;
    put_table_headers(
        out,
        layout,
        names_end(sections),
        local_count(object.symbols.as_slice()),
    )
}
