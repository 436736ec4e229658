//! The rows of tables, put behind other bytes.

ghost use Rattle.std.specs.Prelude.{◌≡◌, ◌++◌, ◌+◌, ◌*◌, ◌^◌, ◌≤◌, ◌<◌, ◌-◌, All, OnOk, map};
ghost use Rattle.fd_base.specs.Words.{word_bytes};
ghost use Rattle.elf_write.specs.Words as spec;

use crate::header::FileHeader;
use elf_model::constants::{REL_SIZE, SHT_REL, SHT_SYMTAB, SYM_SIZE};
use elf_model::{ProgramHeader, Rel, SectionHeader, Symbol};
use fd_base::{Bytes, Memory};

/// Two halfwords in a word, the lower first.
fn halves(low: u16, high: u16) -> u32
    ensures { result ≡ spec.halves low high }
{
    u32::from(low) + 65536 * u32::from(high)
}

/// Puts the ELF header.
pub fn put_header(out: &mut Bytes, h: &FileHeader) -> Result<(), Memory>
    ensures { OnOk result (out.new ≡ out.old ++ word_bytes (spec.header_row h.now)) }
{
    out.push_words(&[
        0x464c_457f,
        0x4101_0101,
        0,
        0,
        halves(h.kind, 40),
        1,
        h.entry,
        h.phoff,
        h.shoff,
        0x0500_0000,
        halves(52, 32),
        halves(h.phnum, 40),
        halves(h.shnum, h.shstrndx),
    ])
}

/// Puts a program header.
pub fn put_program_header(out: &mut Bytes, h: &ProgramHeader) -> Result<(), Memory>
    ensures { OnOk result (out.new ≡ out.old ++ word_bytes (spec.program_row h.now)) }
{
    out.push_words(&[
        h.kind, h.offset, h.vaddr, h.vaddr, h.filesz, h.memsz, h.flags, h.align,
    ])
}

/// The size of an entry, where a section of this kind is a table.
fn entry_size(kind: u32) -> u32
    ensures { result ≡ spec.entry_size kind }
{
    if kind == SHT_SYMTAB {
        SYM_SIZE
    } else if kind == SHT_REL {
        REL_SIZE
    } else {
        0
    }
}

/// Puts a section header.
pub fn put_section_header(out: &mut Bytes, h: &SectionHeader) -> Result<(), Memory>
    ensures { OnOk result (out.new ≡ out.old ++ word_bytes (spec.section_row h.now)) }
{
    out.push_words(&[
        h.name,
        h.kind,
        h.flags,
        h.addr,
        h.offset,
        h.size,
        h.link,
        h.info,
        h.align,
        entry_size(h.kind),
    ])
}

/// Puts a symbol whose name stands at an offset of the strings, in the section of an index.
pub fn put_symbol(out: &mut Bytes, name: u32, index: u16, symbol: &Symbol) -> Result<(), Memory>
    requires kind { symbol.now.kind < 16 }
    requires binding { symbol.now.binding < 16 }
    requires visibility { symbol.now.visibility < 4 }
    ensures { OnOk result (out.new ≡ out.old ++ word_bytes (spec.symbol_row name index symbol.now)) }
{
    let info = 16 * u32::from(symbol.binding) + u32::from(symbol.kind);
    let last = info + 256 * u32::from(symbol.visibility) + 65536 * u32::from(index);
    out.push_words(&[name, symbol.value, symbol.size, last])
}

/// Puts a relocation.
fn put_rel(out: &mut Bytes, rel: &Rel) -> Result<(), Memory>
    requires { rel.now.symbol < 2 ^ 24 }
    ensures { OnOk result (out.new ≡ out.old ++ word_bytes (spec.rel_row rel.now)) }
{
    out.push_words(&[rel.site, u32::from(rel.kind) + 256 * rel.symbol])
}

/// Puts a table of relocations.
pub fn put_rels(out: &mut Bytes, rels: &[Rel]) -> Result<(), Memory>
    requires { All (λ r. r.symbol < 2 ^ 24) rels.now }
    ensures { OnOk result (out.new ≡ out.old ++ spec.table_bytes (map spec.rel_row rels.now)) }
{
    for rel in rels {
        put_rel(out, rel)?;
    }
    Ok(())
}

/// Puts zero bytes.
pub fn put_zeros(out: &mut Bytes, n: u32) -> Result<(), Memory>
    ensures { OnOk result (out.new ≡ out.old ++ spec.zeros n) }
{
    for _ in 0..n {
        out.push(0)?;
    }
    Ok(())
}

/// The first offset from `at` on that leaves the same rest as the place does.
pub fn offset_like(place: u32, align: u32, at: u64) -> u64
    requires some { 0 < align }
    requires fits { at + align ≤ 2 ^ 63 }
    ensures offset { result ≡ spec.offset_like place align at }
    ensures from { at ≤ result }
    ensures near { result < at + align }
{
    let align = u64::from(align);
    at + (u64::from(place) % align + align - at % align) % align
}

/// The first multiple from `at` on. An alignment of 0 counts as 1.
pub fn aligned(align: u32, at: u64) -> u64
    requires { at + align ≤ 2 ^ 62 }
    ensures aligned { result ≡ spec.aligned align at }
    ensures from { at ≤ result }
    ensures near { result ≤ at + align }
{
    offset_like(0, align.max(1), at)
}
