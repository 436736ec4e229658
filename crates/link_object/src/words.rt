//! The words that the linker writes.

ghost use Rattle.std.specs.Prelude.{◌≡◌, ◌++◌, ◌^◌, ◌<◌, All, List, option_to_list, IfOk, OnOk};
ghost use Rattle.std.specs.List.{AllZip, filter_map};
ghost use Rattle.elf_model.specs.declared.relocatable.RelObject.{RelObject};
ghost use Rattle.link_model.specs.declared.input.Mode.{Mode};
ghost use Rattle.link_model.specs.Inputs.{InputRel, all_rels};
ghost use Rattle.link_model.specs.Places.{data_end};
ghost use Rattle.link_model.specs.Segments.{words_of};
ghost use Rattle.link_got.specs.parts.Keyed.{joining_of};
ghost use Rattle.link_words.specs.parts.Facts.{AreFacts, AreLow, AreNear};
ghost use Rattle.link_object.specs.parts.Words.{site_word_of};

use fd_base::{Memory, Seq};
use link_got::{got_words, plt_words};
use link_names::Joined;
use link_places::Layout;
use link_words::{Facts, word_at};
use load_model::LinkWord;
use std::alloc::Global;

/// Words that are written over others, in order.
pub(crate) type LinkWords = Seq<LinkWord>;

/// The word that the linker writes at a relocation, and where.
fn site_word(facts: &Facts) -> Option<LinkWord>
    requires near { AreNear facts.now }
    requires low { AreLow facts.now }
    ensures { (mode : Mode) (inputs : List RelObject) (x : InputRel) → AreFacts mode inputs x facts.now
        → result ≡ site_word_of mode inputs x }
{
    let addr = facts.place as u32;
    word_at(facts).map(|value| LinkWord { addr, value })
}

fn put_word(words: &mut LinkWords, word: Option<LinkWord>) -> Result<(), Memory>
    ensures { OnOk result (words.new ≡ words.old ++ option_to_list word) }
{
    match word {
        Some(word) => words.push(word),
        None => Ok(()),
    }
}

/// Puts the words that the linker writes at relocations behind others, in the order of the facts.
fn put_site_words(words: &mut LinkWords, facts: &[Facts]) -> Result<(), Memory>
    requires near { All AreNear facts.now }
    requires low { All AreLow facts.now }
    ensures { (mode : Mode) (inputs : List RelObject) (xs : List InputRel) → AllZip (AreFacts mode inputs) xs facts.now
        → OnOk result (words.new ≡ words.old ++ filter_map (site_word_of mode inputs) xs) }
{
    for one in facts {
        put_word(words, site_word(one))?;
    }
    Ok(())
}

/// All words that the linker writes: at relocations, in the PLT and in the GOT.
pub(crate) fn linked_words(
    alloc: Global,
    joined: &Joined<'_>,
    layout: &Layout<'_>,
    facts: &[Facts],
) -> Result<LinkWords, Memory>
    requires one { joined.now ≡ joining_of layout.now }
    requires small { data_end layout.now.mode layout.now.text.inputs.now < 2 ^ 32 }
    requires near { All AreNear facts.now }
    requires low { All AreLow facts.now }
    requires found { AllZip (AreFacts layout.now.mode layout.now.text.inputs.now) (all_rels layout.now.text.inputs.now) facts.now }
    ensures { IfOk result (λ words. words ≡ words_of layout.now.mode layout.now.text.inputs.now) }
{
    let mut words = Seq::new(alloc);
    put_site_words(&mut words, facts)?;
    words.extend_from_slice(plt_words(alloc, layout)?.as_slice())?;
    words.extend_from_slice(got_words(alloc, joined, layout)?.as_slice())?;
    Ok(words)
}
