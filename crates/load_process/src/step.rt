//! One name of a walk.

ghost use Rattle.std.specs.Prelude.{◌≡◌, ◌≤◌, ◌<◌, length, All, IfOk, IfErr, OnOk};
ghost use Rattle.load_process.specs.parts.TakenObjects.{IsTaken};
ghost use Rattle.symbol_scope.specs.declared.tables.TheConstants.{MAX_MODULES};
ghost use Rattle.load_model.specs.Explains.{Explains};
ghost use Rattle.load_model.specs.Process.{free_numbers};
ghost use Rattle.load_process.specs.parts.WalkSteps.{IsNewModule, IsNewRefused, IsLooked, IsLookRefused};

use crate::fetch::fetched;
use fd_base::{Name, Seq, Store};
use load_model::{Joining, LoadErr, LoadRefusal, SymbolicProcess};
use std::alloc::Global;

/// The module of a new name, with the first free number behind those that are taken.
fn new_module<S: Store>(
    alloc: Global,
    store: &mut S,
    free: &[u32],
    taken: usize,
    name: &Name,
) -> Result<Joining, LoadErr>
    ensures new { IfOk result (IsNewModule free.now taken (S.files store.old) name.now) }
    ensures sound { IfOk result (λ j. IsTaken j.object) }
    ensures error { IfErr result (Explains (IsNewRefused free.now taken (S.files store.old) name.now) (S.faults store.old) (S.faults store.new)) }
    ensures files { S.files store.new ≡ S.files store.old }
    ensures count { S.faults store.old ≤ S.faults store.new }
{
    if taken >= free.len() {
        return Err(LoadErr::Refused(LoadRefusal::TooManyModules));
    }
    let number = free[taken];
    let object = fetched(alloc, store, name)?;
    Ok(Joining {
        number,
        name: name.copy(alloc)?,
        object,
    })
}

/// The number of the module of a name. One that isn't live joins.
pub(crate) fn look_at<S: Store>(
    alloc: Global,
    process: &SymbolicProcess,
    store: &mut S,
    free: &[u32],
    name: &Name,
    joining: &mut Seq<Joining>,
) -> Result<u32, LoadErr>
    requires sizes { length process.now.modules ≤ MAX_MODULES }
    requires free { free.now ≡ free_numbers process.now }
    requires sound { All (λ j. IsTaken j.object) joining.old }
    ensures looked { IfOk result (λ number. IsLooked process.now (S.files store.old) name.now joining.old number joining.new) }
    ensures sound { OnOk result (All (λ j. IsTaken j.object) joining.new) }
    ensures error { IfErr result (Explains (IsLookRefused process.now (S.files store.old) name.now joining.old) (S.faults store.old) (S.faults store.new)) }
    ensures files { S.files store.new ≡ S.files store.old }
    ensures count { S.faults store.old ≤ S.faults store.new }
{
    if let Some(number) = process.number_of(name) {
        return Ok(number);
    }
    let new = new_module(alloc, store, free, joining.len(), name)?;
    let number = new.number;
    joining.push(new)?;
    Ok(number)
}
