//! The text of the slots of a process.

ghost use Rattle.std.specs.Prelude.{◌≡◌, ◌++◌, IfOk, OnOk};
ghost use Rattle.load_state.specs.Consistent.{IsConsistent};
ghost use Rattle.fdpic_cmd.specs.Slots as spec;

use elf_model::constants::MAX_ENTRIES;
use fd_base::{Bytes, Memory, put_decimal_field, put_hex_field};
use load_model::{MAX_MODULES, SlotPair};
use mod_load::Loader;
use std::alloc::Global;

/// Puts the line of slot `k` of module `m`.
#[tactic(auto, unfolding(crate::specs::Slots::slot_line))]
fn put_slot_line(out: &mut Bytes, m: u32, k: u32, pair: &SlotPair) -> Result<(), Memory>
    ensures { OnOk result (out.new ≡ out.old ++ spec.slot_line m k pair.now) }
{
    out.extend_from_slice(b"slot")?;
    put_decimal_field(out, m)?;
    put_decimal_field(out, k)?;
    put_hex_field(out, pair.addr)?;
    put_hex_field(out, pair.code)?;
    put_hex_field(out, pair.got)?;
    out.push(b'\n')
}

/// Puts the lines of the slots of module `m`, of which there are none where no module has this number.
fn put_slots(out: &mut Bytes, loader: &Loader, m: u32) -> Result<(), Memory>
    requires { IsConsistent loader.now.loaded }
    ensures { OnOk result (out.new ≡ out.old ++ spec.module_lines loader.now.loaded.modules.process loader.now.loaded.modules.maps m) }
{
    for k in 0..MAX_ENTRIES as u32 {
        match loader.slot_pair(m, k) {
            Some(pair) => put_slot_line(out, m, k, &pair)?,
            None => return Ok(()),
        }
    }
    Ok(())
}

/// The lines of the slots of all modules, by their numbers.
pub fn slot_listing(alloc: Global, loader: &Loader) -> Result<Bytes, Memory>
    requires { IsConsistent loader.now.loaded }
    ensures { IfOk result (λ text. text ≡ spec.slot_listing loader.now.loaded.modules.process loader.now.loaded.modules.maps) }
{
    let mut text = Bytes::new(alloc);
    for m in 0..MAX_MODULES {
        put_slots(&mut text, loader, m)?;
    }
    Ok(text)
}
