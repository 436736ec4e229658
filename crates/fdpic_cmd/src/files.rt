//! The files that words name, and the objects that they are.

ghost use Rattle.std.specs.Prelude.{◌≡◌, ◌≤◌, IfOk, IfErr, IfSome, length};
ghost use Rattle.elf_model.specs.Sound.{IsSound};
ghost use Rattle.fd_base.specs.declared.store.TheConstants.{MAX_FILE};
ghost use Rattle.fd_base.specs.Fetched.{ChangesOnly};
ghost use Rattle.fdpic_cmd.specs.Files.{Fetched, PutsBytes};
ghost use Rattle.fdpic_cmd.specs.Show.{Opens};

use crate::status::{Failure, Refusal};
use elf_model::Object;
use elf_read::{ReadErr, read_object};
use fd_base::{Bytes, FetchErr, Name, PutErr, Store};
use std::alloc::Global;

/// The bytes of a file.
pub fn fetched<S: Store>(alloc: Global, store: &mut S, name: &Name) -> Result<Bytes, Failure>
    ensures answer { Fetched (S.files store.old) name.now (S.faults store.old) (S.faults store.new) result }
    ensures short { IfOk result (λ bytes. length bytes ≤ MAX_FILE) }
    ensures files { S.files store.new ≡ S.files store.old }
    ensures count { S.faults store.old ≤ S.faults store.new }
{
    match store.fetch(alloc, name) {
        Err(FetchErr::Failed) => Err(Failure::StoreFault),
        Err(FetchErr::TooLong(_)) => Err(Failure::Refused(Refusal::TooLong(name.copy(alloc)?))),
        Err(FetchErr::Memory) => Err(Failure::Memory),
        Ok(None) => Err(Failure::Refused(Refusal::NoFile(name.copy(alloc)?))),
        Ok(Some(bytes)) => Ok(bytes),
    }
}

/// Makes a file hold these bytes.
#[tactic(auto, using(fd_base::proofs::Changing::same_others, fd_base::proofs::Changing::put_keeps_others))]
pub fn put<S: Store>(store: &mut S, name: &Name, bytes: &[u8]) -> Result<(), Failure>
    ensures answer { PutsBytes (S.files store.old) (S.files store.new) name.now bytes.now (S.faults store.old) (S.faults store.new) result }
    ensures others { ChangesOnly name.now (S.files store.old) (S.files store.new) }
    ensures count { S.faults store.old ≤ S.faults store.new }
{
    match store.put(name, bytes) {
        Ok(()) => Ok(()),
        Err(PutErr::Failed) => Err(Failure::StoreFault),
        Err(PutErr::Memory) => Err(Failure::Memory),
    }
}

/// The object that a file is.
#[tactic(auto, using(crate::proofs::OpenedObjects::opened, crate::proofs::OpenedObjects::no_object, crate::proofs::OpenedObjects::no_file))]
pub fn open<S: Store>(alloc: Global, store: &mut S, name: &Name) -> Result<Object, Failure>
    ensures answer { Opens (S.files store.old) name.now (S.faults store.old) (S.faults store.new) result }
    ensures sound { IfOk result IsSound }
    ensures files { S.files store.new ≡ S.files store.old }
    ensures count { S.faults store.old ≤ S.faults store.new }
{
    let bytes = fetched(alloc, store, name)?;
    match read_object(alloc, bytes.as_slice()) {
        Ok(object) => Ok(object),
        Err(ReadErr::Refused(refusal)) => Err(Failure::Refused(Refusal::Elf(
            name.copy(alloc)?,
            refusal,
        ))),
        Err(ReadErr::Memory) => Err(Failure::Memory),
    }
}
