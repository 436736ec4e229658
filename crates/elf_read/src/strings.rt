//! The strings of a table, and the names among them.

ghost use Rattle.std.specs.Prelude.{◌≡◌, ◌==◌, length, All, IfOk, IfSome, option_map, position, take, drop};
ghost use Rattle.elf_model.specs.Segments.{InFile};
ghost use Rattle.elf_model.specs.Dynamic as dynamic;
ghost use Rattle.elf_model.specs.Strings as spec;
ghost use Rattle.elf_read.specs.parts.Strings.{IsString};
ghost use Rattle.elf_read.specs.parts.Passes.{Reads};

use crate::dynamic::{first_of, value_of};
use crate::error::ReadErr;
use crate::held::held_at;
use crate::refusals::refusal;
use elf_model::constants::{DT_STRSZ, DT_STRTAB};
use elf_model::{DynEntry, ElfKind, ProgramHeader};
use fd_base::{Memory, Name, NameErr};
use std::alloc::{AllocError, Global};

/// The most bytes of a name.
const MAX_NAME: usize = 255;

/// The place of the first zero byte.
fn first_zero(bytes: &[u8]) -> Option<usize>
    ensures { result ≡ position (λ b. b == 0) bytes.now }
{
    bytes.iter().position(|b| *b == 0)
}

/// As many bytes from an offset of the strings on as a name has with its zero byte, or as there are.
fn near(strings: &[u8], k: u32) -> &[u8]
    ensures { result.now ≡ take 256 (drop k strings.now) }
{
    let start = (k as usize).min(strings.len());
    let end = (start + MAX_NAME + 1).min(strings.len());
    &strings[start..end]
}

/// The text at an offset of the strings, where a name may have it.
#[tactic(auto, using(crate::proofs::Near::near_text, crate::proofs::Near::no_near_text, crate::proofs::Near::near_string))]
pub fn string_at(strings: &[u8], k: u32) -> Option<&[u8]>
    ensures text { option_map (λ t. t.now) result ≡ spec.string_at strings.now k }
    ensures string { IfSome result (λ t. IsString t.now) }
{
    let near = near(strings, k);
    match first_zero(near) {
        None => None,
        Some(n) => Some(&near[..n]),
    }
}

/// The name of such a text, and none where it has no bytes.
pub fn name_of(alloc: Global, text: &[u8]) -> Result<Option<Name>, Memory>
    requires { IsString text.now }
    ensures { IfOk result (λ n. n ≡ spec.if_some_byte text.now) }
{
    match Name::new(alloc, text) {
        Ok(name) => Ok(Some(name)),
        Err(NameErr::Memory) => Err(AllocError),
        Err(NameErr::Empty) => Ok(None),
        Err(NameErr::TooLong) => Ok(None),
        Err(NameErr::Zero(_)) => Ok(None),
    }
}

/// The name at an offset of the strings.
#[tactic(auto, unfolding(elf_model::specs::Strings::name_at))]
pub fn name_at(alloc: Global, strings: &[u8], k: u32) -> Result<Option<Name>, Memory>
    ensures { IfOk result (λ n. n ≡ spec.name_at strings.now k) }
{
    match string_at(strings, k) {
        None => Ok(None),
        Some(text) => name_of(alloc, text),
    }
}

#[tactic(auto, unfolding(elf_model::specs::Dynamic::strings_at))]
fn strings_at<'a>(
    bytes: &'a [u8],
    loads: &[ProgramHeader],
    table: u32,
    size: Option<u32>,
) -> Option<&'a [u8]>
    requires { All (InFile (length bytes.now)) loads.now }
    ensures { option_map (λ s. s.now) result ≡ dynamic.strings_at bytes.now loads.now table size }
{
    match size {
        None => None,
        Some(size) => match held_at(loads, table, size) {
            None => None,
            Some(start) => Some(&bytes[start..start + size as usize]),
        },
    }
}

/// The strings of the dynamic section, and no bytes where it has none.
#[tactic(auto, unfolding(elf_model::specs::Dynamic::string_tests, elf_model::specs::Dynamic::strings_of))]
pub fn read_strings<'a>(
    bytes: &'a [u8],
    loads: &[ProgramHeader],
    entries: &[DynEntry],
) -> Result<&'a [u8], ReadErr>
    requires { All (InFile (length bytes.now)) loads.now }
    ensures { Reads (λ s. s.now) result (dynamic.string_tests bytes.now loads.now entries.now)
        (dynamic.strings_of bytes.now loads.now entries.now) }
{
    match first_of(DT_STRTAB, entries) {
        None => Ok(&[]),
        Some(table) => {
            match strings_at(bytes, loads, table.value, value_of(DT_STRSZ, entries)) {
                None => Err(refusal(ElfKind::Table, table.offset)),
                Some(strings) => Ok(strings),
            }
        }
    }
}
