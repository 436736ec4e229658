//! `bind F TEXT DATA`: loads the program in a file and prints the slots of its process.

ghost use Rattle.std.specs.Prelude.{◌≡◌, ◌≤◌, IfOk};
ghost use Rattle.std.specs.Str.{bytes_eq};
ghost use Rattle.load_model.specs.Plan.{Fits};
ghost use Rattle.fdpic_cmd.specs.Bind as spec;
ghost use Rattle.fdpic_cmd.specs.Ended.{Gives};
ghost use Rattle.fdpic_cmd.specs.Program.{failure_by};

use crate::program::program_slots;
use crate::status::{Failure, Refusal};
use fd_base::{Bytes, Memory, Name, Seq, Store};
use load_model::{LoadErr, LoadRefusal, MemPlan, PlaceLine};
use std::alloc::Global;

/// The memory plan of a command that names no job: the two addresses are listed for the file.
fn plan_of(alloc: Global, file: &Name, text: u32, data: u32) -> Result<MemPlan, Memory>
    ensures plan { IfOk result (λ plan. plan ≡ spec.plan_of file.now text «data») }
    ensures fits { IfOk result (λ plan. Fits plan) }
{
    let mut places = Seq::new(alloc);
    places.push(PlaceLine {
        name: file.copy(alloc)?,
        addrs: Seq::from_slice(alloc, &[text, data])?,
    })?;
    Ok(MemPlan {
        memory: 8_388_608,
        descriptors: 64,
        stack: 1024,
        places,
        threads: 8,
        processes: 1,
    })
}

/// Whether a name is that of the file.
fn is_of(name: &Name, file: &Name) -> bool
    ensures { result ≡ bytes_eq name.now file.now }
{
    name.as_slice() == file.as_slice()
}

/// Why loading is refused, as the command says it: what is wrong with the file is said of the file.
fn refusal_of(file: &Name, refusal: LoadRefusal) -> Refusal
    ensures { result ≡ spec.refusal_of file.now refusal }
{
    match refusal {
        LoadRefusal::NoFile(name) => {
            if is_of(&name, file) {
                Refusal::NoFile(name)
            } else {
                Refusal::Load(LoadRefusal::NoFile(name))
            }
        }
        LoadRefusal::Elf(name, test) => {
            if is_of(&name, file) {
                Refusal::Elf(name, test)
            } else {
                Refusal::Load(LoadRefusal::Elf(name, test))
            }
        }
        LoadRefusal::TooLong(name) => {
            if is_of(&name, file) {
                Refusal::TooLong(name)
            } else {
                Refusal::Load(LoadRefusal::TooLong(name))
            }
        }
        other => Refusal::Load(other),
    }
}

/// Why there is no text, as the command says it.
fn failure_of(file: &Name, error: LoadErr) -> Failure
    ensures { result ≡ failure_by (spec.refusal_of file.now) error }
{
    match error {
        LoadErr::Refused(refusal) => Failure::Refused(refusal_of(file, refusal)),
        LoadErr::StoreFault => Failure::StoreFault,
        LoadErr::Memory => Failure::Memory,
    }
}

/// The text of `bind F TEXT DATA`.
#[tactic(auto, using(crate::proofs::SlotListings::given_text))]
pub fn bind<S: Store>(
    alloc: Global,
    store: &mut S,
    file: &Name,
    text: u32,
    data: u32,
) -> Result<Bytes, Failure>
    ensures answer { Gives (spec.BindMeans file.now text «data») (S.files store.old) (S.faults store.old) (S.faults store.new) result }
    ensures files { S.files store.new ≡ S.files store.old }
    ensures count { S.faults store.old ≤ S.faults store.new }
{
    let plan = plan_of(alloc, file, text, data)?;
    match program_slots(alloc, store, &plan, file) {
        Ok(text) => Ok(text),
        Err(e) => Err(failure_of(file, e)),
    }
}
