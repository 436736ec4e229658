//! The load of a program.

ghost use Rattle.std.specs.Prelude.{◌≡◌, ◌≤◌, IfErr, IfOk};
ghost use Rattle.load_model.specs.Explains.{Explains};
ghost use Rattle.load_model.specs.Plan.{Fits};
ghost use Rattle.load_state.specs.Consistent.{IsConsistent};
ghost use Rattle.load_state.specs.ProgramLoad.{IsCause, LoadsProgram};

use crate::loader::Loader;
use fd_base::{Name, Store};
use load_model::{LoadErr, MemPlan};
use std::alloc::Global;

/// The loader of the program of this name, with every slot bound.
pub fn load_program<S: Store>(
    alloc: Global,
    plan: &MemPlan,
    program: &Name,
    store: &mut S,
) -> Result<Loader, LoadErr>
    requires { Fits plan.now }
    ensures loads { IfOk result (λ l. LoadsProgram plan.now program.now (S.files store.old) l.loaded) }
    ensures plan { IfOk result (λ l. l.loaded.modules.plan ≡ plan.now) }
    ensures refused { IfErr result (Explains (IsCause plan.now program.now (S.files store.old))
        (S.faults store.old) (S.faults store.new)) }
    ensures consistent { IfOk result (λ l. IsConsistent l.loaded) }
    ensures files { S.files store.new ≡ S.files store.old }
    ensures count { S.faults store.old ≤ S.faults store.new }
{
    let mut loader = Loader::new(alloc, plan)?;
    let group = loader.plan_group(store, program, false, false)?;
    let _ = loader.commit(group);
    Ok(loader)
}
