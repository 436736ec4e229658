//! Bytes read from a guest's memory.

ghost use Rattle.std.specs.Prelude.{◌≡◌, ◌+◌, ◌<◌, ◌^◌, IfOk, IsTrue, None};
ghost use Rattle.guest_mem.specs.Memory.{is_mapped_as, kind_at};
ghost use Rattle.guest_mem.specs.Accesses.{first_outside};
ghost use Rattle.run_model.specs.Services.{bytes_from};

use fd_base::{Bytes, Memory};
use guest_mem::Guest;
use std::alloc::Global;

#[tactic(auto, using(crate::proofs::MappedBytes::mapped))]
fn is_mapped(guest: &Guest, at: u32) -> bool
    ensures value { result ≡ is_mapped_as (kind_at guest.now at) }
    ensures inside { IsTrue result → at + 1 < 2 ^ 32 }
{
    guest.whole();
    guest.read8(at).is_ok()
}

/// The lowest of `len` bytes from an address on that isn't mapped.
#[tactic(auto, using(guest_mem::proofs::Searches::searches))]
pub fn first_unmapped(guest: &Guest, addr: u32, len: u32) -> Option<u32>
    ensures { result ≡ first_outside is_mapped_as guest.now addr len }
{
    let mut at = addr;
    for _ in 0..len {
        if !is_mapped(guest, at) {
            return Some(at);
        }
        at += 1;
    }
    None
}

/// The bytes from an address on, all of which are mapped.
pub fn copied(alloc: Global, guest: &Guest, addr: u32, len: u32) -> Result<Bytes, Memory>
    requires { first_outside is_mapped_as guest.now addr len ≡ None }
    ensures { IfOk result (λ bytes. bytes ≡ bytes_from guest.now addr len) }
{
    guest.whole();
    let mut bytes = Bytes::new(alloc);
    for i in 0..len {
        bytes.push(guest.peek(addr + i))?;
    }
    Ok(bytes)
}
