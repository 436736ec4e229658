//! What a service does to its thread.

ghost use Rattle.std.specs.Prelude.{◌≡◌, IfOk, OnErr};
ghost use Rattle.run_model.specs.Services as spec;

use crate::bytes::{copied, first_unmapped};
use a32_machine::Cpu;
use fd_base::Memory;
use guest_mem::Guest;
use run_model::{DONE, EXIT, LAST_ERROR, MAX_OUT, OUT, OUT_TOO_LONG, REFUSED, Served, Stop, TURN};
use std::alloc::Global;

/// Bytes are put out: r0 is their address, r1 how many they are.
fn put_out(alloc: Global, cpu: &mut Cpu, refusal: &mut u32, guest: &Guest) -> Result<Served, Memory>
    ensures step { IfOk result (λ served. record { served = served; cpu = cpu.new; refusal = refusal.new }
        ≡ spec.put_out guest.now cpu.old refusal.old (spec.argument cpu.old 0) (spec.argument cpu.old 1)) }
    ensures stays { OnErr result ((cpu.new ≡ cpu.old) × (refusal.new ≡ refusal.old)) }
{
    let addr = cpu.r[0];
    let len = cpu.r[1];
    if len > MAX_OUT {
        cpu.r[0] = REFUSED;
        *refusal = OUT_TOO_LONG;
        return Ok(Served::Went);
    }
    if let Some(unmapped) = first_unmapped(guest, addr, len) {
        return Ok(Served::Stopped(Stop::Fault(unmapped)));
    }
    let bytes = copied(alloc, guest, addr, len)?;
    cpu.r[0] = len;
    Ok(Served::Wrote(bytes))
}

/// Does a service for the thread with these registers, whose pc stands behind the `svc`, and with this last refusal.
/// Without memory nothing changes.
#[tactic(auto, unfolding(run_model::specs::Services::service_of))]
pub fn serve(
    alloc: Global,
    number: u32,
    cpu: &mut Cpu,
    refusal: &mut u32,
    guest: &Guest,
) -> Result<Served, Memory>
    ensures step { IfOk result (λ served. record { served = served; cpu = cpu.new; refusal = refusal.new }
        ≡ spec.service_of number cpu.old refusal.old guest.now) }
    ensures stays { OnErr result ((cpu.new ≡ cpu.old) × (refusal.new ≡ refusal.old)) }
{
    match number {
        EXIT => Ok(Served::Exited(cpu.r[0])),
        OUT => put_out(alloc, cpu, refusal, guest),
        DONE => Ok(Served::Finished(cpu.r[0])),
        TURN => Ok(Served::Yielded),
        LAST_ERROR => {
            cpu.r[0] = *refusal;
            Ok(Served::Went)
        }
        _ => Ok(Served::Stopped(Stop::Service(number))),
    }
}
