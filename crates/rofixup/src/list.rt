//! The list itself.

ghost use Rattle.std.specs.Prelude.{◌≡◌, IfOk};
ghost use Rattle.rofixup.specs.Fixups.{fixup_list};

use fd_base::{Memory, Seq, Words};
use std::alloc::Global;

/// The entries of `.rofixup`: the link addresses of the words that are to be replaced, and as the last entry
/// that of the GOT.
pub fn emit(alloc: Global, sites: &[u32], got: u32) -> Result<Words, Memory>
    ensures { IfOk result (λ entries. entries ≡ fixup_list sites.now got) }
{
    let mut entries = Seq::from_slice(alloc, sites)?;
    entries.push(got)?;
    Ok(entries)
}
