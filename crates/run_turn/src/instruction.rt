//! One instruction of a thread.

ghost use Rattle.std.specs.Prelude.{◌≡◌, Some, IfOk};
ghost use Rattle.run_model.specs.Instructions as spec;
ghost use Rattle.run_model.specs.Services.{service_of};
ghost use Rattle.run_turn.specs.parts.QuietSteps.{Machine, WalksOn, machine_of};

use crate::serve;
use a32_machine::{Cpu, StepEnd, StepStop};
use fd_base::Memory;
use guest_mem::Guest;
use run_model::{Served, Stop, Thread};
use std::alloc::Global;

fn stop_by(why: StepStop) -> Stop
    ensures { result ≡ spec.stop_by why }
{
    match why {
        StepStop::Stray(addr) => Stop::Stray(addr),
        StepStop::Fault(addr) => Stop::Fault(addr),
        StepStop::Undefined(word) => Stop::Undefined(word),
        StepStop::Unaligned(addr) => Stop::Unaligned(addr),
    }
}

/// Does the service of this number, for which the thread has just asked; `thread.cpu` stands behind the `svc`, and
/// `before` at it.
fn attend(
    alloc: Global,
    number: u32,
    before: Cpu,
    thread: &mut Thread,
    guest: &Guest,
) -> Result<Served, Memory>
    ensures done { IfOk result (λ served. record { served = served; cpu = thread.new.cpu; refusal = thread.new.refusal; memory = guest.now }
        ≡ spec.obeyed_with before (service_of number thread.old.cpu thread.old.refusal guest.now) guest.now) }
    ensures calls { thread.new.calls ≡ thread.old.calls }
{
    let served = serve(alloc, number, &mut thread.cpu, &mut thread.refusal, guest)?;
    if let Served::Stopped(_) = served {
        thread.cpu = before;
    }
    Ok(served)
}

/// What an instruction that has ended so comes to, with the service that it asks for. One that calls the supervisor or stops has
/// left the thread before it.
pub(crate) fn come_to(
    alloc: Global,
    end: StepEnd,
    thread: &mut Thread,
    guest: &Guest,
) -> Result<Served, Memory>
    ensures done { (before : Machine) → WalksOn (Some end) before (machine_of thread.old.cpu guest.now)
        → IfOk result (λ served. record { served = served; cpu = thread.new.cpu; refusal = thread.new.refusal; memory = guest.now }
        ≡ spec.obeyed_by before.cpu thread.old.refusal before.memory) }
    ensures calls { thread.new.calls ≡ thread.old.calls }
{
    match end {
        StepEnd::Next => Ok(Served::Went),
        StepEnd::Service(number) => {
            let before = thread.cpu;
            thread.cpu.r[15] = thread.cpu.r[15].wrapping_add(4);
            attend(alloc, number, before, thread, guest)
        }
        StepEnd::Stop(why) => Ok(Served::Stopped(stop_by(why))),
    }
}
