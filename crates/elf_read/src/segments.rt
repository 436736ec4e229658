//! The program headers, and the segments among them.

ghost use Rattle.std.specs.Prelude.{◌≡◌, ◌≤◌, ◌<◌, ◌^◌, ◌+◌, ◌*◌, length, map, OnOk, IfOk, All, true, IsTrue};
ghost use Rattle.std.specs.List.{list_any};
ghost use Rattle.elf_model.specs.Header.{e_phoff, e_phnum};
ghost use Rattle.elf_model.specs.Segments as spec;
ghost use Rattle.elf_model.specs.Object.{all_segment_tests};
ghost use Rattle.elf_read.specs.parts.HeaderTables.{HasProgramTable};
ghost use Rattle.elf_read.specs.parts.Passes.{Passes, Reads};

use crate::error::ReadErr;
use crate::fields::{e_phnum, e_phoff};
use crate::refusals::refuse;
use elf_model::constants::{
    E_PHNUM, EHDR_SIZE, MAX_SEGMENTS, P_ALIGN, P_FILESZ, P_FLAGS, P_MEMSZ, P_OFFSET, P_TYPE,
    P_VADDR, PHDR_SIZE, PT_LOAD, PT_TLS,
};
use elf_model::{ElfKind, ProgramHeader, Segment, Segments};
use fd_base::{Bytes, Memory, word_in};
use std::alloc::Global;

/// Where program header `i` stands in the file.
pub fn header_offset(bytes: &[u8], i: u16) -> u32
    requires long { EHDR_SIZE ≤ length bytes.now }
    requires fits { e_phoff bytes.now + PHDR_SIZE * i < 2 ^ 32 }
    ensures { result ≡ spec.header_offset bytes.now i }
{
    e_phoff(bytes) + u32::from(PHDR_SIZE) * u32::from(i)
}

/// Program header `i`.
#[tactic(auto, unfolding(elf_model::specs::Segments::program_header))]
pub fn program_header(bytes: &[u8], i: u16) -> ProgramHeader
    requires small { length bytes.now < 2 ^ 32 }
    requires long { EHDR_SIZE ≤ length bytes.now }
    requires inside { e_phoff bytes.now + PHDR_SIZE * i + PHDR_SIZE ≤ length bytes.now }
    ensures { result ≡ spec.program_header bytes.now i }
{
    let at = header_offset(bytes, i) as usize;
    ProgramHeader {
        kind: word_in(bytes, at + P_TYPE),
        offset: word_in(bytes, at + P_OFFSET),
        vaddr: word_in(bytes, at + P_VADDR),
        filesz: word_in(bytes, at + P_FILESZ),
        memsz: word_in(bytes, at + P_MEMSZ),
        flags: word_in(bytes, at + P_FLAGS),
        align: word_in(bytes, at + P_ALIGN),
    }
}

/// Whether the header is that of a segment with memory.
pub fn is_load(h: &ProgramHeader) -> bool
    ensures { result ≡ spec.is_load h.now }
{
    h.kind == PT_LOAD && 0 < h.memsz
}

#[tactic(auto, unfolding(elf_model::specs::Segments::is_in_range))]
fn is_in_range(h: &ProgramHeader, len: usize) -> bool
    ensures value { result ≡ spec.is_in_range h.now len }
    ensures in_file { IsTrue result → spec.InFile len h.now }
    ensures below { IsTrue result → h.now.vaddr + h.now.memsz < 2 ^ 32 }
{
    let file_end = u64::from(h.offset) + u64::from(h.filesz);
    let end = u64::from(h.vaddr) + u64::from(h.memsz);
    file_end <= len as u64
        && h.filesz <= h.memsz
        && end < 1 << 32
        && (h.align == 0 || h.align.is_power_of_two())
}

#[tactic(auto, unfolding(elf_model::specs::Segments::memory_meets))]
fn memory_meets(a: &ProgramHeader, b: &ProgramHeader) -> bool
    ensures { result ≡ spec.memory_meets a.now b.now }
{
    let a_end = u64::from(a.vaddr) + u64::from(a.memsz);
    let b_end = u64::from(b.vaddr) + u64::from(b.memsz);
    u64::from(a.vaddr) < b_end && u64::from(b.vaddr) < a_end
}

fn meets_any(h: &ProgramHeader, earlier: &[ProgramHeader]) -> bool
    ensures { result ≡ list_any (λ e. spec.memory_meets h.now e) earlier.now }
{
    earlier.iter().any(|e| memory_meets(h, e))
}

/// The tests of a header that stands at an offset of a file of `len` bytes, with the segments before it.
#[tactic(auto, unfolding(elf_model::specs::Segments::program_header_tests))]
fn check_program_header(
    len: usize,
    offset: u32,
    h: &ProgramHeader,
    earlier: &[ProgramHeader],
) -> Result<(), ReadErr>
    ensures tests { Passes result (spec.program_header_tests len offset h.now earlier.now) }
    ensures in_file { OnOk result (true ≡ spec.is_load h.now → spec.InFile len h.now) }
    ensures below { OnOk result (true ≡ spec.is_load h.now → h.now.vaddr + h.now.memsz < 2 ^ 32) }
{
    refuse(h.kind == PT_TLS && 0 < h.memsz, ElfKind::Tls, offset)?;
    if !is_load(h) {
        return Ok(());
    }
    refuse(MAX_SEGMENTS <= earlier.len(), ElfKind::TooMany, offset)?;
    refuse(!is_in_range(h, len), ElfKind::SegmentRange, offset)?;
    refuse(meets_any(h, earlier), ElfKind::SegmentOverlap, offset)
}

/// The headers of the segments with memory, in order.
fn loads(alloc: Global, bytes: &[u8]) -> Result<Vec<ProgramHeader>, ReadErr>
    requires small { length bytes.now < 2 ^ 32 }
    requires long { EHDR_SIZE ≤ length bytes.now }
    requires table { HasProgramTable bytes.now }
    ensures tests { Reads (λ v. v.items) result (spec.segment_tests bytes.now) (spec.loads bytes.now) }
    ensures in_file { IfOk result (λ v. All (λ h. spec.InFile (length bytes.now) h) v.items) }
    ensures below { IfOk result (λ v. All (λ h. h.vaddr + h.memsz < 2 ^ 32) v.items) }
{
    let mut loads = Vec::new(alloc);
    for i in 0..e_phnum(bytes) {
        let h = program_header(bytes, i);
        check_program_header(bytes.len(), header_offset(bytes, i), &h, &loads)?;
        if is_load(&h) {
            loads.push(h)?;
        }
    }
    Ok(loads)
}

/// The segments, of which there is at least one.
#[tactic(auto, using(elf_model::proofs::Tests::passed_over, elf_model::proofs::Tests::fails_first), unfolding(elf_model::specs::Object::all_segment_tests, elf_model::specs::Segments::some_segment_tests))]
pub fn read_loads(alloc: Global, bytes: &[u8]) -> Result<Vec<ProgramHeader>, ReadErr>
    requires small { length bytes.now < 2 ^ 32 }
    requires long { EHDR_SIZE ≤ length bytes.now }
    requires table { HasProgramTable bytes.now }
    ensures tests { Reads (λ v. v.items) result (all_segment_tests bytes.now) (spec.loads bytes.now) }
    ensures in_file { IfOk result (λ v. All (spec.InFile (length bytes.now)) v.items) }
    ensures below { IfOk result (λ v. All (λ h. h.vaddr + h.memsz < 2 ^ 32) v.items) }
{
    let loads = loads(alloc, bytes)?;
    refuse(loads.is_empty(), ElfKind::Header, E_PHNUM)?;
    Ok(loads)
}

fn segment_of(alloc: Global, bytes: &[u8], h: &ProgramHeader) -> Result<Segment, Memory>
    requires { spec.InFile (length bytes.now) h.now }
    ensures { IfOk result (λ s. s ≡ spec.segment bytes.now h.now) }
{
    let start = h.offset as usize;
    Ok(Segment {
        vaddr: h.vaddr,
        memsz: h.memsz,
        flags: h.flags,
        align: h.align,
        filled: Bytes::from_slice(alloc, &bytes[start..start + h.filesz as usize])?,
    })
}

/// The segments, each with its bytes.
pub fn segments_of(alloc: Global, bytes: &[u8], loads: &[ProgramHeader]) -> Result<Segments, Memory>
    requires { All (spec.InFile (length bytes.now)) loads.now }
    ensures { IfOk result (λ s. s ≡ map (spec.segment bytes.now) loads.now) }
{
    let mut segments = Segments::new(alloc);
    for h in loads {
        segments.push(segment_of(alloc, bytes, h)?)?;
    }
    Ok(segments)
}
