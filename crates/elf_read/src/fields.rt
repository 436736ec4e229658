//! The fields of the ELF header, under the standard's names.

ghost use Rattle.std.specs.Prelude.{◌≡◌, ◌≤◌, length};
ghost use Rattle.elf_model.specs.Header as spec;

use elf_model::constants::{
    E_ENTRY, E_FLAGS, E_MACHINE, E_PHENTSIZE, E_PHNUM, E_PHOFF, E_SHENTSIZE, E_SHNUM, E_SHOFF,
    E_SHSTRNDX, E_TYPE, E_VERSION, EHDR_SIZE,
};
use fd_base::{half_in, word_in};

/// The type of the file.
pub fn e_type(bytes: &[u8]) -> u16
    requires { EHDR_SIZE ≤ length bytes.now }
    ensures { result ≡ spec.e_type bytes.now }
{
    half_in(bytes, E_TYPE as usize)
}

/// The machine.
pub fn e_machine(bytes: &[u8]) -> u16
    requires { EHDR_SIZE ≤ length bytes.now }
    ensures { result ≡ spec.e_machine bytes.now }
{
    half_in(bytes, E_MACHINE as usize)
}

/// The version of the format.
pub fn e_version(bytes: &[u8]) -> u32
    requires { EHDR_SIZE ≤ length bytes.now }
    ensures { result ≡ spec.e_version bytes.now }
{
    word_in(bytes, E_VERSION as usize)
}

/// The link address at which a program begins.
pub fn e_entry(bytes: &[u8]) -> u32
    requires { EHDR_SIZE ≤ length bytes.now }
    ensures { result ≡ spec.e_entry bytes.now }
{
    word_in(bytes, E_ENTRY as usize)
}

/// The offset of the program headers.
pub fn e_phoff(bytes: &[u8]) -> u32
    requires { EHDR_SIZE ≤ length bytes.now }
    ensures { result ≡ spec.e_phoff bytes.now }
{
    word_in(bytes, E_PHOFF as usize)
}

/// The offset of the section headers.
pub fn e_shoff(bytes: &[u8]) -> u32
    requires { EHDR_SIZE ≤ length bytes.now }
    ensures { result ≡ spec.e_shoff bytes.now }
{
    word_in(bytes, E_SHOFF as usize)
}

/// Flags of the processor.
pub fn e_flags(bytes: &[u8]) -> u32
    requires { EHDR_SIZE ≤ length bytes.now }
    ensures { result ≡ spec.e_flags bytes.now }
{
    word_in(bytes, E_FLAGS as usize)
}

/// The size of a program header.
pub fn e_phentsize(bytes: &[u8]) -> u16
    requires { EHDR_SIZE ≤ length bytes.now }
    ensures { result ≡ spec.e_phentsize bytes.now }
{
    half_in(bytes, E_PHENTSIZE as usize)
}

/// How many program headers there are.
pub fn e_phnum(bytes: &[u8]) -> u16
    requires { EHDR_SIZE ≤ length bytes.now }
    ensures { result ≡ spec.e_phnum bytes.now }
{
    half_in(bytes, E_PHNUM as usize)
}

/// The size of a section header.
pub fn e_shentsize(bytes: &[u8]) -> u16
    requires { EHDR_SIZE ≤ length bytes.now }
    ensures { result ≡ spec.e_shentsize bytes.now }
{
    half_in(bytes, E_SHENTSIZE as usize)
}

/// How many section headers there are.
pub fn e_shnum(bytes: &[u8]) -> u16
    requires { EHDR_SIZE ≤ length bytes.now }
    ensures { result ≡ spec.e_shnum bytes.now }
{
    half_in(bytes, E_SHNUM as usize)
}

/// Which section has the names of the sections.
pub fn e_shstrndx(bytes: &[u8]) -> u16
    requires { EHDR_SIZE ≤ length bytes.now }
    ensures { result ≡ spec.e_shstrndx bytes.now }
{
    half_in(bytes, E_SHSTRNDX as usize)
}
