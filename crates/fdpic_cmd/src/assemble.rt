//! `as OUT IN`.

ghost use Rattle.std.specs.Prelude.{◌≡◌, ◌≤◌, length};
ghost use Rattle.fd_base.specs.declared.store.TheConstants.{MAX_FILE};
ghost use Rattle.fd_base.specs.Fetched.{ChangesOnly};
ghost use Rattle.a32_asm.specs.Text.{assembled};
ghost use Rattle.fdpic_cmd.specs.Assemble as spec;
ghost use Rattle.fdpic_cmd.specs.Ended.{Makes, Puts};

use crate::files::{fetched, put};
use crate::status::{Failure, Refusal};
use a32_asm::{AsmErr, assemble};
use fd_base::{Bytes, Name, Store};
use std::alloc::Global;

/// The relocatable file of a text.
#[tactic(auto, using(crate::proofs::AssembledFiles::made, crate::proofs::AssembledFiles::too_long, crate::proofs::AssembledFiles::refused))]
fn file_of(alloc: Global, text: &[u8]) -> Result<Bytes, Failure>
    requires { length text.now ≤ MAX_FILE }
    ensures { Makes (spec.file_of (assembled text.now)) result }
{
    match assemble(alloc, text) {
        Ok(bytes) => Ok(bytes),
        Err(AsmErr::Refused(refusal)) => Err(Failure::Refused(Refusal::Asm(refusal))),
        Err(AsmErr::TooLong(n)) => Err(Failure::Refused(Refusal::OutTooLong(u64::from(n)))),
        Err(AsmErr::Memory) => Err(Failure::Memory),
    }
}

/// Puts the relocatable file of the text in a file. Where there is none, all files stay.
#[tactic(auto, using(crate::proofs::AssembledFiles::put, crate::proofs::AssembledFiles::not_made, crate::proofs::AssembledFiles::not_there, fd_base::proofs::Changing::same_others, fd_base::proofs::Changing::put_keeps_others))]
pub fn put_assembled<S: Store>(
    alloc: Global,
    store: &mut S,
    out: &Name,
    input: &Name,
) -> Result<(), Failure>
    ensures answer { Puts (spec.AsMeans out.now input.now) out.now (S.files store.old) (S.files store.new) (S.faults store.old) (S.faults store.new) result }
    ensures others { ChangesOnly out.now (S.files store.old) (S.files store.new) }
    ensures count { S.faults store.old ≤ S.faults store.new }
{
    let text = fetched(alloc, store, input)?;
    let bytes = file_of(alloc, text.as_slice())?;
    put(store, out, bytes.as_slice())
}
