//! The entries of an object's PLT.

ghost use Rattle.std.specs.Prelude.{◌+◌, ◌<◌, length, IfOk};
ghost use Rattle.elf_model.specs.Sound.{IsSound};
ghost use Rattle.plt_code.specs.Entries.{IsListing};
ghost use Rattle.plt_code.specs.parts.Scanned.{IsNext};

use crate::scan::scan;
use crate::table::slot_table;
use elf_model::constants::PF_X;
use elf_model::{Object, Segment};
use fd_base::{Memory, Seq};
use std::alloc::Global;

/// An entry of the PLT.
#[derive(Clone, Copy, Debug, PartialEq, Eq)]
pub struct Entry {
    /// The link address of its first word.
    pub at: u32,
    /// The number of its slot: the place of the slot's relocation in DT_JMPREL, counted from 0.
    pub slot: u32,
}

/// Entries by rising address.
pub type Entries = Seq<Entry>;

/// The place of the executable segment that begins lowest, of those that don't begin below an address: `next`
/// of the first `i` segments, and the one at `i`.
fn lower(segments: &[Segment], from: u32, next: Option<usize>, i: usize) -> Option<usize>
    requires within { i < length segments.now }
    requires next { IsNext segments.now from i next }
    ensures { IsNext segments.now from (i + 1) result }
{
    let segment = &segments[i];
    if segment.flags & PF_X == 0 || segment.vaddr < from {
        return next;
    }
    match next {
        Some(best) if segments[best].vaddr <= segment.vaddr => next,
        _ => Some(i),
    }
}

/// The place of the executable segment that begins lowest, of those that don't begin below an address.
fn next_text(segments: &[Segment], from: u32) -> Option<usize>
    ensures { IsNext segments.now from (length segments.now) result }
{
    let mut next = None;
    for i in 0..segments.len() {
        next = lower(segments, from, next, i);
    }
    next
}

/// The entries of the PLT in the file's bytes of the executable segments, each once, by rising address.
pub fn entries(alloc: Global, o: &Object) -> Result<Entries, Memory>
    requires { IsSound o.now }
    ensures { IfOk result (IsListing o.entry.now) }
{
    let table = slot_table(alloc, o.got, o.jmprels.as_slice())?;
    let segments = o.segments.as_slice();
    let mut found = Seq::new(alloc);
    let mut from = 0;
    while let Some(i) = next_text(segments, from) {
        let text = &segments[i];
        scan(o, &table, text, &mut found)?;
        from = text.vaddr + text.memsz;
    }
    Ok(found)
}
