//! The bytes of an executable or a shared object, part by part.

ghost use Rattle.std.specs.Prelude.{◌≡◌, ◌++◌, ◌+◌, ◌^◌, ◌≤◌, ◌<◌, ◌*◌, ◌-◌, [], Some, OnOk, length, map};
ghost use Rattle.std.specs.Option.{option_map_or};
ghost use Rattle.elf_write.specs.Words as word;
ghost use Rattle.elf_write.specs.TableSegment as table;
ghost use Rattle.elf_write.specs.ObjectFile as spec;
ghost use Rattle.elf_write.specs.Writes.{Writes};
ghost use Rattle.elf_write.specs.WritableObject.{IsWritableObject};
ghost use Rattle.elf_write.specs.parts.SmallObject.{IsObjectSmall};
ghost use Rattle.elf_write.specs.parts.ObjectSizes.{IsSegmentSmall, AreSegmentsSmall, IsPlaced, tables_load, dynamic_load, rofixup_place, names_place};

use crate::error::WriteErr;
use crate::header::FileHeader;
use crate::limits::MAX_FILE_BYTES;
use crate::object_layout::{
    ObjectLayout, SECTION_NAMES, dynamic_size, end_of, end_of_all, file_layout, header_count,
    headers_end, offset_of,
};
use crate::rows::{put_header, put_program_header, put_section_header, put_zeros};
use crate::table_layout::{TableLayout, layout_of};
use crate::tables::put_tables;
use elf_model::constants::{
    EHDR_SIZE, ET_DYN, ET_EXEC, PF_R, PT_DYNAMIC, PT_LOAD, SHF_ALLOC, SHT_PROGBITS, SHT_STRTAB,
};
use elf_model::{Kind, Object, ProgramHeader, SectionHeader, Segment};
use fd_base::{Bytes, Memory, Words};
use std::alloc::Global;

/// The ELF header of an object whose parts stand there.
fn file_header(object: &Object, layout: &ObjectLayout) -> FileHeader
    requires few { length object.now.segments ≤ 7 }
    requires sections { layout.now.sections ≡ spec.sections_offset object.now }
    requires fits { layout.now.sections < 2 ^ 32 }
    ensures { result ≡ spec.file_header object.entry.now }
{
    let listed = object.fixups.is_some();
    FileHeader {
        kind: match object.kind {
            Kind::Exec => ET_EXEC,
            Kind::Dyn => ET_DYN,
        },
        entry: object.entry,
        phoff: u32::from(EHDR_SIZE),
        phnum: header_count(object.segments.as_slice()),
        shoff: if listed { layout.sections as u32 } else { 0 },
        shnum: if listed { 3 } else { 0 },
        shstrndx: if listed { 2 } else { 0 },
    }
}

/// The header of a segment that would begin at an offset.
fn load_header(at: u64, segment: &Segment) -> ProgramHeader
    requires small { IsSegmentSmall segment.now }
    requires near { at < 2 ^ 40 }
    requires fits { spec.end_of at segment.now < 2 ^ 32 }
    ensures { result ≡ spec.load_header at segment.now }
{
    ProgramHeader {
        kind: PT_LOAD,
        offset: offset_of(at, segment) as u32,
        vaddr: segment.vaddr,
        filesz: segment.filled.len() as u32,
        memsz: segment.memsz,
        flags: segment.flags,
        align: segment.align,
    }
}

/// Puts the headers of segments, the first of which would begin at an offset.
fn put_load_headers(out: &mut Bytes, from: u64, segments: &[Segment]) -> Result<(), Memory>
    requires small { AreSegmentsSmall segments.now }
    requires near { from ≤ 1024 }
    requires fits { spec.end_of_all from segments.now < 2 ^ 32 }
    ensures { OnOk result (out.new ≡ out.old ++ word.table_bytes (map word.program_row (spec.load_headers from segments.now))) }
{
    let mut at = from;
    for segment in segments {
        put_program_header(out, &load_header(at, segment))?;
        at = end_of(at, segment);
    }
    Ok(())
}

/// Puts the bytes of a segment, with zeros before them where it would begin at an offset.
fn put_content(out: &mut Bytes, at: u64, segment: &Segment) -> Result<(), Memory>
    requires small { IsSegmentSmall segment.now }
    requires fits { at < 2 ^ 40 }
    ensures { OnOk result (out.new ≡ out.old ++ (word.zeros (spec.offset_of at segment.now - at) ++ segment.now.filled)) }
{
    put_zeros(out, (offset_of(at, segment) - at) as u32)?;
    out.extend_from_slice(segment.filled.as_slice())
}

/// Puts the bytes of segments, the first of which would begin at an offset.
fn put_contents(out: &mut Bytes, from: u64, segments: &[Segment]) -> Result<(), Memory>
    requires small { AreSegmentsSmall segments.now }
    requires near { from ≤ 1024 }
    ensures { OnOk result (out.new ≡ out.old ++ spec.contents from segments.now) }
{
    let mut at = from;
    for segment in segments {
        put_content(out, at, segment)?;
        at = end_of(at, segment);
    }
    Ok(())
}

/// The header of the segment of tables.
fn tables_header(tables: &TableLayout, layout: &ObjectLayout) -> ProgramHeader
    requires order { layout.now.tables ≤ layout.now.names }
    requires fits { layout.now.names < 2 ^ 32 }
    requires below { tables.now.hash < 2 ^ 32 }
    ensures { result ≡ tables_load tables.now layout.now }
{
    let size = (layout.names - layout.tables) as u32;
    ProgramHeader {
        kind: PT_LOAD,
        offset: layout.tables as u32,
        vaddr: tables.hash as u32,
        filesz: size,
        memsz: size,
        flags: PF_R,
        align: 16,
    }
}

/// The header of the dynamic section.
fn dynamic_header(object: &Object, tables: &TableLayout, layout: &ObjectLayout) -> ProgramHeader
    requires small { IsObjectSmall object.now }
    requires order { tables.now.hash ≤ tables.now.dynamic }
    requires fits { layout.now.tables + (tables.now.dynamic - tables.now.hash) < 2 ^ 32 }
    requires below { tables.now.dynamic < 2 ^ 32 }
    ensures { result ≡ dynamic_load object.entry.now tables.now layout.now }
{
    let size = dynamic_size(object) as u32;
    ProgramHeader {
        kind: PT_DYNAMIC,
        offset: (layout.tables + (tables.dynamic - tables.hash)) as u32,
        vaddr: tables.dynamic as u32,
        filesz: size,
        memsz: size,
        flags: PF_R,
        align: 4,
    }
}

/// Puts the program headers.
fn put_program_headers(
    out: &mut Bytes,
    object: &Object,
    tables: &TableLayout,
    layout: &ObjectLayout,
) -> Result<(), Memory>
    requires small { IsObjectSmall object.now }
    requires segments { AreSegmentsSmall object.now.segments }
    requires placed { IsPlaced object.now tables.now layout.now }
    ensures { OnOk result (out.new ≡ out.old ++ word.table_bytes (map word.program_row (spec.program_headers object.entry.now))) }
{
    put_load_headers(out, headers_end(object), object.segments.as_slice())?;
    put_program_header(out, &tables_header(tables, layout))?;
    put_program_header(out, &dynamic_header(object, tables, layout))
}

/// Puts the bytes of the segments, and those of the tables behind them.
fn put_segments(
    alloc: Global,
    out: &mut Bytes,
    object: &Object,
    tables: &TableLayout,
    layout: &ObjectLayout,
) -> Result<(), Memory>
    requires writable { IsWritableObject object.now }
    requires small { IsObjectSmall object.now }
    requires segments { AreSegmentsSmall object.now.segments }
    requires placed { IsPlaced object.now tables.now layout.now }
    ensures { OnOk result (out.new ≡ out.old ++ spec.contents (spec.headers_end object.entry.now) (table.with_tables object.entry.now).segments) }
{
    let segments = object.segments.as_slice();
    let from = headers_end(object);
    put_contents(out, from, segments)?;
    put_zeros(out, (layout.tables - end_of_all(from, segments)) as u32)?;
    put_tables(alloc, out, tables, object)
}

/// The header before all others.
fn no_header() -> SectionHeader
    ensures { result ≡ spec.no_header }
{
    SectionHeader {
        name: 0,
        kind: 0,
        flags: 0,
        addr: 0,
        offset: 0,
        size: 0,
        link: 0,
        info: 0,
        align: 0,
    }
}

/// The header of the list of fixups.
fn rofixup_header(fixups: &Words, tables: &TableLayout, layout: &ObjectLayout) -> SectionHeader
    requires order { tables.now.hash ≤ tables.now.fixups }
    requires fits { layout.now.tables + (tables.now.fixups - tables.now.hash) < 2 ^ 32 }
    requires below { tables.now.fixups + 4 * (length fixups.now + 1) < 2 ^ 32 }
    ensures { result ≡ rofixup_place fixups.now tables.now layout.now }
{
    SectionHeader {
        name: 1,
        kind: SHT_PROGBITS,
        flags: SHF_ALLOC,
        addr: tables.fixups as u32,
        offset: (layout.tables + (tables.fixups - tables.hash)) as u32,
        size: 4 * (fixups.len() as u32 + 1),
        link: 0,
        info: 0,
        align: 4,
    }
}

/// The header of the names of sections.
fn names_header(layout: &ObjectLayout) -> SectionHeader
    requires { layout.now.names < 2 ^ 32 }
    ensures { result ≡ names_place layout.now }
{
    SectionHeader {
        name: 10,
        kind: SHT_STRTAB,
        flags: 0,
        addr: 0,
        offset: layout.names as u32,
        size: SECTION_NAMES.len() as u32,
        link: 0,
        info: 0,
        align: 1,
    }
}

/// Puts the names of sections and the section headers.
fn put_section_list(
    out: &mut Bytes,
    object: &Object,
    fixups: &Words,
    tables: &TableLayout,
    layout: &ObjectLayout,
) -> Result<(), Memory>
    requires placed { IsPlaced object.now tables.now layout.now }
    requires listed { object.now.fixups ≡ Some fixups.now }
    ensures { OnOk result (out.new ≡ out.old ++ spec.sections object.entry.now fixups.now) }
{
    out.extend_from_slice(&SECTION_NAMES)?;
    let names_end = layout.names + SECTION_NAMES.len() as u64;
    put_zeros(out, (layout.sections - names_end) as u32)?;
    put_section_header(out, &no_header())?;
    put_section_header(out, &rofixup_header(fixups, tables, layout))?;
    put_section_header(out, &names_header(layout))
}

/// Puts the section headers of an object that has fixups.
fn put_sections(
    out: &mut Bytes,
    object: &Object,
    tables: &TableLayout,
    layout: &ObjectLayout,
) -> Result<(), Memory>
    requires placed { IsPlaced object.now tables.now layout.now }
    ensures { OnOk result (out.new ≡ out.old ++ option_map_or (spec.sections object.entry.now) object.entry.now.fixups []) }
{
    match &object.fixups {
        Some(fixups) => put_section_list(out, object, fixups, tables, layout),
        None => Ok(()),
    }
}

/// Puts the parts of the file in their order.
fn put_file(
    alloc: Global,
    out: &mut Bytes,
    object: &Object,
    tables: &TableLayout,
    layout: &ObjectLayout,
) -> Result<(), Memory>
    requires writable { IsWritableObject object.now }
    requires small { IsObjectSmall object.now }
    requires segments { AreSegmentsSmall object.now.segments }
    requires placed { IsPlaced object.now tables.now layout.now }
    ensures { OnOk result (out.new ≡ out.old ++ spec.object_file object.entry.now) }
{
    put_header(out, &file_header(object, layout))?;
    put_program_headers(out, object, tables, layout)?;
    put_segments(alloc, out, object, tables, layout)?;
    put_sections(out, object, tables, layout)
}

/// The bytes of an executable or a shared object. `TooLong` comes exactly where they would be more than
/// `MAX_FILE_BYTES`, with how many they would be.
pub fn write_object(alloc: Global, object: &Object) -> Result<Bytes, WriteErr>
    requires { IsWritableObject object.now }
    ensures { Writes result (spec.object_file object.entry.now) }
{
    let tables = layout_of(object);
    let layout = file_layout(object, &tables);
    if u64::from(MAX_FILE_BYTES) < layout.size {
        return Err(WriteErr::TooLong(layout.size));
    }
    let mut out = Bytes::new(alloc);
    put_file(alloc, &mut out, object, &tables, &layout)?;
    Ok(out)
}
