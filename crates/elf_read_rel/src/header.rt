//! The ELF header of a relocatable file.

ghost use Rattle.std.specs.Prelude.{◌≡◌, ◌≤◌, ◌<◌, ◌^◌, ◌++◌, length, OnOk};
ghost use Rattle.elf_model.specs.Header.{file_tests};
ghost use Rattle.elf_model.specs.RelSections.{needed_table_tests};
ghost use Rattle.elf_model.specs.Relocatable.{relocatable_abis, relocatable_types};
ghost use Rattle.elf_read.specs.parts.Passes.{Passes};
ghost use Rattle.elf_read_rel.specs.parts.Headers.{HasHeaders};

use elf_model::ElfKind;
use elf_model::constants::{E_SHNUM, EHDR_SIZE, ELFOSABI_ARM_FDPIC, ELFOSABI_NONE, ET_REL};
use elf_read::{ReadErr, check_file, check_section_table, e_shnum, refuse};

/// The tests of the section headers, which have to be there.
#[tactic(auto, unfolding(elf_model::specs::RelSections::needed_table_tests, elf_model::specs::Header::section_table_tests))]
fn check_needed_table(bytes: &[u8]) -> Result<(), ReadErr>
    requires small { length bytes.now < 2 ^ 32 }
    requires long { EHDR_SIZE ≤ length bytes.now }
    ensures tests { Passes result (needed_table_tests bytes.now) }
    ensures headers { OnOk result (HasHeaders bytes.now) }
{
    refuse(e_shnum(bytes) == 0, ElfKind::Header, E_SHNUM)?;
    check_section_table(bytes)
}

/// The tests of the header.
#[tactic(auto, using(elf_model::proofs::Tests::passed_over, elf_model::proofs::Tests::fails_first))]
pub fn check_header(bytes: &[u8]) -> Result<(), ReadErr>
    requires { length bytes.now < 2 ^ 32 }
    ensures tests { Passes result (file_tests relocatable_abis relocatable_types bytes.now ++ needed_table_tests bytes.now) }
    ensures headers { OnOk result (HasHeaders bytes.now) }
{
    check_file(bytes, &[ELFOSABI_NONE, ELFOSABI_ARM_FDPIC], &[ET_REL])?;
    check_needed_table(bytes)
}
