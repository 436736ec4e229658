//! The words of the GOT.

ghost use Rattle.std.specs.Prelude.{◌≡◌, ◌<◌, ◌^◌, ◌++◌, ◌∷◌, [], Contains, IfOk, OnOk};
ghost use Rattle.link_model.specs.Needs.{all_needs};
ghost use Rattle.link_model.specs.Places.{data_end};
ghost use Rattle.link_model.specs.Segments as spec;
ghost use Rattle.link_model.specs.Targets.{target_of_key};
ghost use Rattle.link_model.specs.declared.need.Need.TheVariants.{Descriptor, Slot};
ghost use Rattle.link_names.specs.parts.Joining.{IsKey};
ghost use Rattle.link_got.specs.parts.Keyed.{joining_of};

use crate::row::put_row;
use fd_base::{Memory, Seq};
use link_model::{Key, LAZY_OFFSET, Mode, Need};
use link_names::Joined;
use link_places::{Layout, descriptor_need};
use link_words::{descriptor_word, symbol_word};
use load_model::LinkWord;
use std::alloc::Global;

/// The word with the address of a symbol.
fn word(joined: &Joined, layout: &Layout, key: Key) -> u32
    requires one { joined.now ≡ joining_of layout.now }
    requires key { IsKey joined.now.inputs key }
    ensures { result ≡ spec.symbol_word joined.now.mode joined.now.inputs (target_of_key joined.now.mode joined.now.inputs key) }
{
    let target = joined.target_of_key(key);
    symbol_word(&target, layout.address_of(target.spot))
}

/// The word with the address of a symbol's descriptor.
fn func_word(joined: &Joined, layout: &Layout, key: Key) -> u32
    requires one { joined.now ≡ joining_of layout.now }
    requires small { data_end layout.now.mode layout.now.text.inputs.now < 2 ^ 32 }
    requires key { IsKey joined.now.inputs key }
    ensures { result ≡ spec.descriptor_word joined.now.mode joined.now.inputs (target_of_key joined.now.mode joined.now.inputs key) }
{
    let target = joined.target_of_key(key);
    let need = descriptor_need(&layout.text, &target);
    descriptor_word(&target, layout.need_place(need) as u32)
}

/// The descriptor of the function at a link address.
fn descriptor(layout: &Layout, function: u64) -> [u32; 2]
    requires small { data_end layout.now.mode layout.now.text.inputs.now < 2 ^ 32 }
    ensures { result ≡ spec.need_values layout.now.mode layout.now.text.inputs.now (Descriptor function) }
{
    let got = match layout.mode {
        Mode::Static => layout.data_place() as u32,
        Mode::Program | Mode::Shared => 0,
    };
    [(function % (1 << 32)) as u32, got]
}

/// The slot of a symbol, which leads to the call of the resolver in the symbol's entry.
fn slot(layout: &Layout, key: Key) -> [u32; 2]
    requires small { data_end layout.now.mode layout.now.text.inputs.now < 2 ^ 32 }
    ensures { result ≡ spec.need_values layout.now.mode layout.now.text.inputs.now (Slot key) }
{
    [layout.plt_entry_of(key) as u32 + LAZY_OFFSET, 0]
}

/// Puts the words of a need behind others.
fn put_need(
    words: &mut Seq<LinkWord>,
    joined: &Joined,
    layout: &Layout,
    need: Need,
) -> Result<(), Memory>
    requires one { joined.now ≡ joining_of layout.now }
    requires small { data_end layout.now.mode layout.now.text.inputs.now < 2 ^ 32 }
    requires there { Contains (all_needs joined.now.mode joined.now.inputs) need }
    ensures { OnOk result (words.new ≡ words.old ++ spec.need_words joined.now.mode joined.now.inputs need) }
{
    let place = layout.need_place(need) as u32;
    match need {
        Need::Word(key) => put_row(words, place, &[word(joined, layout, key)]),
        Need::FuncWord(key) => put_row(words, place, &[func_word(joined, layout, key)]),
        Need::Descriptor(function) => put_row(words, place, &descriptor(layout, function)),
        Need::NoFunction(_) => Ok(()),
        Need::Slot(key) => put_row(words, place, &slot(layout, key)),
    }
}

/// The words of all that stands in the GOT behind its header, by first use.
pub fn got_words(alloc: Global, joined: &Joined, layout: &Layout) -> Result<Seq<LinkWord>, Memory>
    requires one { joined.now ≡ joining_of layout.now }
    requires small { data_end layout.now.mode layout.now.text.inputs.now < 2 ^ 32 }
    ensures { IfOk result (λ words. words ≡ spec.got_words joined.now.mode joined.now.inputs) }
{
    let mut words = Seq::new(alloc);
    for need in layout.needs.list() {
        put_need(&mut words, joined, layout, *need)?;
    }
    Ok(words)
}
