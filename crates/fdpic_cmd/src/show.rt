//! `show F` and `code F`.

ghost use Rattle.std.specs.Prelude.{◌≡◌, ◌≤◌};
ghost use Rattle.fdpic_cmd.specs.Ended.{Gives};
ghost use Rattle.fdpic_cmd.specs.Show.{CodeMeans, ShowMeans};

use crate::code::code_listing;
use crate::files::{fetched, open};
use crate::status::{Failure, Refusal};
use elf_listing::listing_of;
use elf_read::ReadErr;
use fd_base::{Bytes, Name, Store};
use std::alloc::Global;

/// The text of `code F`: the words of the executable segments of the object in a file.
#[tactic(auto, using(crate::proofs::OpenedObjects::code_of, crate::proofs::OpenedObjects::no_code))]
pub fn code<S: Store>(alloc: Global, store: &mut S, file: &Name) -> Result<Bytes, Failure>
    ensures answer { Gives (CodeMeans file.now) (S.files store.old) (S.faults store.old) (S.faults store.new) result }
    ensures files { S.files store.new ≡ S.files store.old }
    ensures count { S.faults store.old ≤ S.faults store.new }
{
    let object = open(alloc, store, file)?;
    Ok(code_listing(alloc, &object)?)
}

/// The text of `show F`: what the relocatable file or the object in a file holds.
#[tactic(auto, using(crate::proofs::ShownFiles::shown, crate::proofs::ShownFiles::refused, crate::proofs::ShownFiles::not_there))]
pub fn show<S: Store>(alloc: Global, store: &mut S, file: &Name) -> Result<Bytes, Failure>
    ensures answer { Gives (ShowMeans file.now) (S.files store.old) (S.faults store.old) (S.faults store.new) result }
    ensures files { S.files store.new ≡ S.files store.old }
    ensures count { S.faults store.old ≤ S.faults store.new }
{
    let bytes = fetched(alloc, store, file)?;
    match listing_of(alloc, bytes.as_slice()) {
        Ok(text) => Ok(text),
        Err(ReadErr::Refused(refusal)) => Err(Failure::Refused(Refusal::Elf(
            file.copy(alloc)?,
            refusal,
        ))),
        Err(ReadErr::Memory) => Err(Failure::Memory),
    }
}
