//! The object of a file.

ghost use Rattle.std.specs.Prelude.{◌≡◌, ◌≤◌, IfOk, IfErr, length};
ghost use Rattle.load_process.specs.parts.TakenObjects.{IsTaken};
ghost use Rattle.elf_model.specs.Object.{IsObject};
ghost use Rattle.fd_base.specs.declared.store.TheConstants.{MAX_FILE};
ghost use Rattle.load_model.specs.Explains.{Explains};
ghost use Rattle.load_model.specs.Walk.{FileIs, IsFileRefused};
ghost use Rattle.load_process.specs.parts.WalkSteps.{IsBytesRefused};

use elf_model::Object;
use elf_read::{ReadErr, read_object};
use fd_base::{FetchErr, Name, Store};
use load_model::{LoadErr, LoadRefusal};
use std::alloc::Global;

/// The object of these bytes, which are those of the file of this name.
#[tactic(auto, using(crate::proofs::FewSymbols::taken))]
fn object_of(alloc: Global, name: &Name, bytes: &[u8]) -> Result<Object, LoadErr>
    requires { length bytes.now ≤ MAX_FILE }
    ensures object { IfOk result (IsObject bytes.now) }
    ensures sound { IfOk result IsTaken }
    ensures error { IfErr result (IsBytesRefused name.now bytes.now) }
{
    match read_object(alloc, bytes) {
        Ok(object) => Ok(object),
        Err(ReadErr::Refused(refusal)) => {
            Err(LoadErr::Refused(LoadRefusal::Elf(name.copy(alloc)?, refusal)))
        }
        Err(ReadErr::Memory) => Err(LoadErr::Memory),
    }
}

/// The object of the file of this name.
pub(crate) fn fetched<S: Store>(
    alloc: Global,
    store: &mut S,
    name: &Name,
) -> Result<Object, LoadErr>
    ensures object { IfOk result (FileIs (S.files store.old) name.now) }
    ensures sound { IfOk result IsTaken }
    ensures error { IfErr result (Explains (IsFileRefused (S.files store.old) name.now) (S.faults store.old) (S.faults store.new)) }
    ensures files { S.files store.new ≡ S.files store.old }
    ensures count { S.faults store.old ≤ S.faults store.new }
{
    match store.fetch(alloc, name) {
        Err(FetchErr::Failed) => Err(LoadErr::StoreFault),
        Err(FetchErr::TooLong(_)) => Err(LoadErr::Refused(LoadRefusal::TooLong(name.copy(alloc)?))),
        Err(FetchErr::Memory) => Err(LoadErr::Memory),
        Ok(None) => Err(LoadErr::Refused(LoadRefusal::NoFile(name.copy(alloc)?))),
        Ok(Some(bytes)) => object_of(alloc, name, bytes.as_slice()),
    }
}
