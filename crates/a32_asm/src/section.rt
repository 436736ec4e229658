//! The sections of a text, by number.

ghost use Rattle.std.specs.Prelude.{◌≡◌, ◌<◌, IfSome};
ghost use Rattle.a32_text.specs.Word.{numbered};
ghost use Rattle.a32_asm.specs.Section as spec;

use elf_model::constants::{SHF_ALLOC, SHF_EXECINSTR, SHF_WRITE, SHT_NOBITS, SHT_PROGBITS};

/// How many sections there are.
pub const SECTIONS: u8 = 4;
/// The section whose bytes are zeros and stand in no file, `.bss`.
pub const BSS: u8 = 3;

/// The name of a section, which is that of its directive.
#[tactic(auto, unfolding(crate::specs::Section::section_name))]
pub(crate) fn section_name(number: u8) -> &'static str
    ensures { result.now ≡ spec.section_name number }
{
    match number {
        0 => ".text",
        1 => ".rodata",
        2 => ".data",
        _ => ".bss",
    }
}

/// Its type: `.bss` has no bytes in the file.
pub(crate) fn section_kind(number: u8) -> u32
    ensures { result ≡ spec.section_kind number }
{
    match number {
        0 => SHT_PROGBITS,
        1 => SHT_PROGBITS,
        2 => SHT_PROGBITS,
        _ => SHT_NOBITS,
    }
}

/// Its flags: all have memory, `.text` can run, `.data` and `.bss` be written.
pub(crate) fn section_flags(number: u8) -> u32
    ensures { result ≡ spec.section_flags number }
{
    match number {
        0 => SHF_ALLOC | SHF_EXECINSTR,
        1 => SHF_ALLOC,
        2 => SHF_ALLOC | SHF_WRITE,
        _ => SHF_ALLOC | SHF_WRITE,
    }
}

/// The section of a name.
pub(crate) fn section_of(name: &[u8]) -> Option<u8>
    ensures number { result ≡ numbered spec.section_name SECTIONS name.now }
    ensures below { IfSome result (λ number. number < SECTIONS) }
{
    (0..SECTIONS).find(|number| section_name(*number).as_bytes() == name)
}
