//! Where the parts of a written object stand in the file.

ghost use Rattle.std.specs.Prelude.{◌≡◌, ◌+◌, ◌*◌, ◌^◌, ◌≤◌, ◌<◌, length};
ghost use Rattle.elf_write.specs.TableSegment.{entries, init_entries, layout_of, dynamic_size, table_end};
ghost use Rattle.elf_write.specs.TableSegment.{tables as spec_tables};
ghost use Rattle.elf_write.specs.ObjectFile as spec;
ghost use Rattle.elf_write.specs.parts.SmallObject.{IsObjectSmall};
ghost use Rattle.elf_write.specs.parts.ObjectSizes.{AreSegmentsSmall, IsSegmentSmall, IsTableOrder, IsFileLayout, size_from};

use crate::rows::{aligned, offset_like};
use crate::table_layout::{TableLayout, layout_of};
use elf_model::constants::{DYN_SIZE, EHDR_SIZE, PHDR_SIZE, SHDR_SIZE};
use elf_model::{Inits, Object, Segment};

/// The offsets of the parts behind the segments.
#[derive(Clone, Copy)]
pub struct ObjectLayout {
    /// That of the tables.
    pub tables: u64,
    /// That of the names of sections, behind the tables.
    pub names: u64,
    /// That of the section headers.
    pub sections: u64,
    /// How many bytes the file has.
    pub size: u64,
}

/// The names of the sections of an object that has fixups.
pub const SECTION_NAMES: [u8; 20] = *b"\0.rofixup\0.shstrtab\0";

/// The offset of a segment that would begin at another.
pub fn offset_of(at: u64, segment: &Segment) -> u64
    requires small { IsSegmentSmall segment.now }
    requires fits { at < 2 ^ 40 }
    ensures offset { result ≡ spec.offset_of at segment.now }
    ensures from { at ≤ result }
    ensures near { result < at + 4096 }
{
    offset_like(segment.vaddr, segment.align, at)
}

/// Where a segment ends that would begin at an offset.
pub fn end_of(at: u64, segment: &Segment) -> u64
    requires small { IsSegmentSmall segment.now }
    requires fits { at < 2 ^ 40 }
    ensures end { result ≡ spec.end_of at segment.now }
    ensures near { result ≤ at + 2 ^ 33 }
{
    offset_of(at, segment) + segment.filled.len() as u64
}

/// Where the last segment ends, the first of which would begin at an offset.
pub fn end_of_all(from: u64, segments: &[Segment]) -> u64
    requires small { AreSegmentsSmall segments.now }
    requires fits { from ≤ 1024 }
    ensures end { result ≡ spec.end_of_all from segments.now }
    ensures near { result < 2 ^ 37 }
{
    let mut at = from;
    for segment in segments {
        at = end_of(at, segment);
    }
    at
}

/// How many program headers there are.
pub fn header_count(segments: &[Segment]) -> u16
    requires { length segments.now ≤ 7 }
    ensures { result ≡ length segments.now + 2 }
{
    segments.len() as u16 + 2
}

/// Where the program headers end.
pub fn headers_end(object: &Object) -> u64
    requires { length object.now.segments ≤ 7 }
    ensures end { result ≡ spec.headers_end object.entry.now }
    ensures near { result ≤ 1024 }
{
    let count = header_count(object.segments.as_slice());
    u64::from(EHDR_SIZE) + u64::from(PHDR_SIZE) * u64::from(count)
}

/// How many entries of the dynamic section say what is to be called.
fn init_count(inits: &Inits) -> u64
    ensures count { result ≡ length (init_entries inits.now) }
    ensures few { result ≤ 6 }
{
    u64::from(inits.init.is_some())
        + u64::from(inits.fini.is_some())
        + 2 * u64::from(inits.init_array.is_some())
        + 2 * u64::from(inits.fini_array.is_some())
}

/// How many entries the dynamic section has before the NULL.
fn entry_count(object: &Object) -> u64
    requires { IsObjectSmall object.now }
    ensures count { result ≡ length (entries object.entry.now) }
    ensures few { result ≤ 128 }
{
    let names = object.needed.len() as u64 + u64::from(object.soname.is_some());
    let rels = 3 * u64::from(!object.rels.is_empty());
    let slots = 3 * u64::from(!object.jmprels.is_empty());
    let flags = u64::from(object.symbolic) + u64::from(object.now);
    names + 5 + rels + slots + 1 + flags + init_count(&object.inits)
}

/// How many bytes the dynamic section has.
pub fn dynamic_size(object: &Object) -> u64
    requires { IsObjectSmall object.now }
    ensures size { result ≡ dynamic_size object.entry.now }
    ensures few { result ≤ 2048 }
{
    u64::from(DYN_SIZE) * (entry_count(object) + 1)
}

/// The link address where the segment of tables of a written object would end. It may pass 32 bits: such an object isn't
/// written.
pub fn table_end(object: &Object) -> u64
    requires { IsObjectSmall object.now }
    ensures { result ≡ table_end object.entry.now }
{
    layout_of(object).dynamic + dynamic_size(object)
}

/// How many bytes the tables have.
pub fn tables_size(object: &Object, tables: &TableLayout) -> u64
    requires small { IsObjectSmall object.now }
    requires layout { tables.now ≡ layout_of object.now }
    requires order { IsTableOrder tables.now }
    ensures size { result ≡ length (spec_tables object.entry.now) }
    ensures near { result ≤ 2 ^ 41 }
{
    tables.dynamic - tables.hash + dynamic_size(object)
}

/// How many bytes the file has, by where the names of sections and the section headers would stand.
fn file_size(object: &Object, names: u64, sections: u64) -> u64
    requires { sections < 2 ^ 60 }
    ensures { result ≡ size_from names sections object.entry.now.fixups }
{
    match &object.fixups {
        Some(_) => sections + 3 * u64::from(SHDR_SIZE),
        None => names,
    }
}

/// Where the parts of the file stand.
pub fn file_layout(object: &Object, tables: &TableLayout) -> ObjectLayout
    requires small { IsObjectSmall object.now }
    requires segments { AreSegmentsSmall object.now.segments }
    requires layout { tables.now ≡ layout_of object.now }
    requires order { IsTableOrder tables.now }
    ensures { IsFileLayout object.entry.now result }
{
    let segments_end = end_of_all(headers_end(object), object.segments.as_slice());
    let tables_at = offset_like(0, 16, segments_end);
    let names_at = tables_at + tables_size(object, tables);
    let sections_at = aligned(4, names_at + SECTION_NAMES.len() as u64);
    ObjectLayout {
        tables: tables_at,
        names: names_at,
        sections: sections_at,
        size: file_size(object, names_at, sections_at),
    }
}
