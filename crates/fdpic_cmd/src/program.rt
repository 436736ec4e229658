//! A program that is loaded, and the text of its slots.

ghost use Rattle.std.specs.Prelude.{◌≡◌, ◌≤◌};
ghost use Rattle.load_model.specs.Plan.{Fits};
ghost use Rattle.fdpic_cmd.specs.Program.{Lists};

use crate::slot_listing::slot_listing;
use fd_base::{Bytes, Name, Store};
use load_model::{LoadErr, MemPlan};
use mod_load::load_program;
use std::alloc::Global;

/// The slots of the program of this name, which is loaded over a memory plan.
#[tactic(auto, using(crate::proofs::SlotListings::lists))]
pub fn program_slots<S: Store>(
    alloc: Global,
    store: &mut S,
    plan: &MemPlan,
    program: &Name,
) -> Result<Bytes, LoadErr>
    requires { Fits plan.now }
    ensures answer { Lists plan.now program.now (S.files store.old) (S.faults store.old) (S.faults store.new) result }
    ensures files { S.files store.new ≡ S.files store.old }
    ensures count { S.faults store.old ≤ S.faults store.new }
{
    let loader = load_program(alloc, plan, program, store)?;
    Ok(slot_listing(alloc, &loader)?)
}
