//! What the bytes of a file are, as text, by the reader of their type.

ghost use Rattle.std.specs.Prelude.{◌≡◌, ◌<◌, ◌-◌, ◌^◌, length};
ghost use Rattle.elf_listing.specs.Shown as spec;
ghost use Rattle.elf_listing.specs.parts.Answers.{Lists};

use crate::object::object_listing;
use crate::relocatable::relocatable_listing;
use elf_model::constants::{E_TYPE, ET_REL};
use elf_read::{ReadErr, read_object};
use elf_read_rel::read_rel_object;
use fd_base::{Bytes, half_in};
use std::alloc::Global;

/// Whether the bytes are read as a relocatable file.
fn is_relocatable(bytes: &[u8]) -> bool
    ensures { result ≡ spec.is_relocatable bytes.now }
{
    E_TYPE as usize + 2 <= bytes.len() && half_in(bytes, E_TYPE as usize) == ET_REL
}

#[tactic(auto, using(crate::proofs::ReadFiles::no_object))]
fn list_object(alloc: Global, bytes: &[u8]) -> Result<Bytes, ReadErr>
    requires { length bytes.now < 2 ^ 32 - 1 }
    ensures { Lists (spec.listed_object bytes.now) result }
{
    let object = read_object(alloc, bytes)?;
    Ok(object_listing(alloc, &object)?)
}

#[tactic(auto, using(crate::proofs::ReadFiles::no_relocatable))]
fn list_relocatable(alloc: Global, bytes: &[u8]) -> Result<Bytes, ReadErr>
    requires { length bytes.now < 2 ^ 32 - 1 }
    ensures { Lists (spec.listed_relocatable bytes.now) result }
{
    let file = read_rel_object(alloc, bytes)?;
    Ok(relocatable_listing(alloc, &file)?)
}

/// What the bytes are, as text: a relocatable file where their type says so, and else an object. `Refused` comes exactly
/// where they are none, with the first test that they fail.
#[tactic(auto, unfolding(crate::specs::Shown::listing_of))]
pub fn listing_of(alloc: Global, bytes: &[u8]) -> Result<Bytes, ReadErr>
    requires { length bytes.now < 2 ^ 32 - 1 }
    ensures { Lists (spec.listing_of bytes.now) result }
{
    if is_relocatable(bytes) {
        list_relocatable(alloc, bytes)
    } else {
        list_object(alloc, bytes)
    }
}
