//! The ELF header.

ghost use Rattle.std.specs.Prelude.{◌≡◌, ◌≤◌, ◌<◌, ◌^◌, ◌+◌, ◌*◌, length, OnOk};
ghost use Rattle.elf_model.specs.Header as spec;
ghost use Rattle.elf_read.specs.parts.HeaderTables.{HasProgramTable, HasSectionTable};
ghost use Rattle.elf_read.specs.parts.Passes.{Passes};

use crate::error::ReadErr;
use crate::fields::{
    e_flags, e_machine, e_phentsize, e_phnum, e_phoff, e_shentsize, e_shnum, e_shoff, e_shstrndx,
    e_type, e_version,
};
use crate::refusals::refuse;
use elf_model::constants::{
    E_FLAGS, E_MACHINE, E_PHENTSIZE, E_PHNUM, E_PHOFF, E_SHENTSIZE, E_SHNUM, E_SHOFF, E_SHSTRNDX,
    E_TYPE, E_VERSION, EF_ARM_EABI_VERSION, EHDR_SIZE, EI_OSABI, ELFOSABI_ARM_FDPIC, EM_ARM,
    ET_DYN, ET_EXEC, PHDR_SIZE, SHDR_SIZE,
};
use elf_model::{ElfKind, Kind};

/// The first bytes: the magic number, 32 bits, little-endian, and version 1.
const IDENT: [u8; 7] = [0x7f, b'E', b'L', b'F', 1, 1, 1];

/// Whether `n` bytes from an offset on pass the end of the file.
pub fn passes_end(bytes: &[u8], offset: u32, n: usize) -> bool
    requires { offset + n < 2 ^ 64 }
    ensures { result ≡ spec.passes_end bytes.now offset n }
{
    bytes.len() < offset as usize + n
}

#[tactic(auto, unfolding(elf_model::specs::Header::size_tests))]
fn check_size(bytes: &[u8]) -> Result<(), ReadErr>
    requires { length bytes.now < 2 ^ 32 }
    ensures tests { Passes result (spec.size_tests bytes.now) }
    ensures long { OnOk result (EHDR_SIZE ≤ length bytes.now) }
{
    let len = bytes.len() as u32;
    refuse(len < u32::from(EHDR_SIZE), ElfKind::Short, len)
}

/// The tests of the bytes before the OS/ABI.
#[tactic(auto, unfolding(elf_model::specs::Header::magic_tests))]
fn check_magic(bytes: &[u8]) -> Result<(), ReadErr>
    requires { EHDR_SIZE ≤ length bytes.now }
    ensures { Passes result (spec.magic_tests bytes.now) }
{
    for i in 0..IDENT.len() {
        refuse(bytes[i] != IDENT[i], ElfKind::Ident, i as u32)?;
    }
    Ok(())
}

/// The test of the OS/ABI, of which these are allowed.
#[tactic(auto, unfolding(elf_model::specs::Header::abi_tests))]
fn check_abi(bytes: &[u8], abis: &[u8]) -> Result<(), ReadErr>
    requires { EHDR_SIZE ≤ length bytes.now }
    ensures { Passes result (spec.abi_tests abis.now bytes.now) }
{
    let is_allowed = abis.contains(&bytes[EI_OSABI as usize]);
    refuse(!is_allowed, ElfKind::Ident, EI_OSABI)
}

/// Those of the whole identification, in which these OS/ABIs are allowed.
#[tactic(auto, using(elf_model::proofs::Tests::passed_over, elf_model::proofs::Tests::fails_first), unfolding(elf_model::specs::Header::ident_tests))]
fn check_ident(bytes: &[u8], abis: &[u8]) -> Result<(), ReadErr>
    requires { EHDR_SIZE ≤ length bytes.now }
    ensures { Passes result (spec.ident_tests abis.now bytes.now) }
{
    check_magic(bytes)?;
    check_abi(bytes, abis)
}

#[tactic(auto, unfolding(elf_model::specs::Header::machine_tests))]
fn check_machine(bytes: &[u8]) -> Result<(), ReadErr>
    requires { EHDR_SIZE ≤ length bytes.now }
    ensures { Passes result (spec.machine_tests bytes.now) }
{
    refuse(e_machine(bytes) != EM_ARM, ElfKind::Machine, E_MACHINE)?;
    let version = e_flags(bytes) >> 24;
    let is_wrong = version != u32::from(EF_ARM_EABI_VERSION);
    refuse(is_wrong, ElfKind::Machine, E_FLAGS)
}

/// The tests of the type, of which these are allowed, and of the version.
#[tactic(auto, unfolding(elf_model::specs::Header::type_tests))]
fn check_type(bytes: &[u8], types: &[u16]) -> Result<(), ReadErr>
    requires { EHDR_SIZE ≤ length bytes.now }
    ensures { Passes result (spec.type_tests types.now bytes.now) }
{
    let is_allowed = types.contains(&e_type(bytes));
    refuse(!is_allowed, ElfKind::FileType, E_TYPE)?;
    refuse(e_version(bytes) != 1, ElfKind::Header, E_VERSION)
}

/// The tests of any file, of which these OS/ABIs and types are allowed.
#[tactic(auto, using(elf_model::proofs::Tests::passed_over, elf_model::proofs::Tests::fails_first), unfolding(elf_model::specs::Header::file_tests))]
pub fn check_file(bytes: &[u8], abis: &[u8], types: &[u16]) -> Result<(), ReadErr>
    requires { length bytes.now < 2 ^ 32 }
    ensures tests { Passes result (spec.file_tests abis.now types.now bytes.now) }
    ensures long { OnOk result (EHDR_SIZE ≤ length bytes.now) }
{
    check_size(bytes)?;
    check_ident(bytes, abis)?;
    check_machine(bytes)?;
    check_type(bytes, types)
}

#[tactic(auto, unfolding(elf_model::specs::Header::program_table_tests))]
fn check_program_table(bytes: &[u8]) -> Result<(), ReadErr>
    requires { EHDR_SIZE ≤ length bytes.now }
    ensures tests { Passes result (spec.program_table_tests bytes.now) }
    ensures table { OnOk result (HasProgramTable bytes.now) }
{
    let is_wrong_size = e_phentsize(bytes) != PHDR_SIZE;
    refuse(is_wrong_size, ElfKind::Header, E_PHENTSIZE)?;
    let count = e_phnum(bytes);
    refuse(count == 0, ElfKind::Header, E_PHNUM)?;
    let size = usize::from(PHDR_SIZE) * usize::from(count);
    let is_short = passes_end(bytes, e_phoff(bytes), size);
    refuse(is_short, ElfKind::Header, E_PHOFF)
}

/// The tests of the section headers, where the file has some.
#[tactic(auto, unfolding(elf_model::specs::Header::section_table_tests))]
pub fn check_section_table(bytes: &[u8]) -> Result<(), ReadErr>
    requires { EHDR_SIZE ≤ length bytes.now }
    ensures tests { Passes result (spec.section_table_tests bytes.now) }
    ensures sections { OnOk result (HasSectionTable bytes.now) }
{
    let count = e_shnum(bytes);
    if count == 0 {
        return Ok(());
    }
    let is_wrong_size = e_shentsize(bytes) != SHDR_SIZE;
    refuse(is_wrong_size, ElfKind::Header, E_SHENTSIZE)?;
    let size = usize::from(SHDR_SIZE) * usize::from(count);
    let is_short = passes_end(bytes, e_shoff(bytes), size);
    refuse(is_short, ElfKind::Header, E_SHOFF)?;
    let has_no_names = count <= e_shstrndx(bytes);
    refuse(has_no_names, ElfKind::Header, E_SHSTRNDX)
}

/// The tests of the header.
#[tactic(auto, using(elf_model::proofs::Tests::passed_over, elf_model::proofs::Tests::fails_first), unfolding(elf_model::specs::Header::header_tests))]
pub fn check_header(bytes: &[u8]) -> Result<(), ReadErr>
    requires { length bytes.now < 2 ^ 32 }
    ensures tests { Passes result (spec.header_tests bytes.now) }
    ensures long { OnOk result (EHDR_SIZE ≤ length bytes.now) }
    ensures table { OnOk result (HasProgramTable bytes.now) }
    ensures sections { OnOk result (HasSectionTable bytes.now) }
{
    check_file(bytes, &[ELFOSABI_ARM_FDPIC], &[ET_EXEC, ET_DYN])?;
    check_program_table(bytes)?;
    check_section_table(bytes)
}

/// What the object is for.
pub fn kind_of(bytes: &[u8]) -> Kind
    requires { EHDR_SIZE ≤ length bytes.now }
    ensures { result ≡ spec.kind bytes.now }
{
    if e_type(bytes) == ET_EXEC {
        Kind::Exec
    } else {
        Kind::Dyn
    }
}
