//! The words of the PLT.

ghost use Rattle.std.specs.Prelude.{◌≡◌, ◌<◌, ◌^◌, ◌++◌, Some, slice_get, IfOk, OnOk};
ghost use Rattle.link_model.specs.Needs.{slot_keys};
ghost use Rattle.link_model.specs.Places.{data_end};
ghost use Rattle.link_model.specs.Segments as spec;

use crate::row::put_row;
use elf_model::constants::REL_SIZE;
use fd_base::{Memory, Seq};
use link_model::{Key, Need, PLT_ENTRY_SIZE};
use link_places::Layout;
use load_model::LinkWord;
use plt_code::entry_words;
use std::alloc::Global;

/// Puts the words of the entry of slot `k` behind others.
fn put_entry(words: &mut Seq<LinkWord>, layout: &Layout, k: u32, key: Key) -> Result<(), Memory>
    requires small { data_end layout.now.mode layout.now.text.inputs.now < 2 ^ 32 }
    requires slot { slice_get (slot_keys layout.now.mode layout.now.text.inputs.now) k ≡ Some key }
    ensures { OnOk result (words.new ≡ words.old ++ spec.plt_entry_words layout.now.mode layout.now.text.inputs.now (k, key)) }
{
    let place = layout.plt_place() as u32 + PLT_ENTRY_SIZE * k;
    let slot = layout.needs.offset(Need::Slot(key));
    put_row(words, place, &entry_words(slot, REL_SIZE * k))
}

/// The words of all entries of the PLT, by number of the slot.
pub fn plt_words(alloc: Global, layout: &Layout) -> Result<Seq<LinkWord>, Memory>
    requires small { data_end layout.now.mode layout.now.text.inputs.now < 2 ^ 32 }
    ensures { IfOk result (λ words. words ≡ spec.plt_words layout.now.mode layout.now.text.inputs.now) }
{
    let mut words = Seq::new(alloc);
    for (k, key) in layout.slot_keys().iter().enumerate() {
        put_entry(&mut words, layout, k as u32, *key)?;
    }
    Ok(words)
}
