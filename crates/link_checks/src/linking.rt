//! All that a link has settled of its symbols and its layout.

ghost use Rattle.std.specs.Prelude.{◌≡◌, ◌++◌, All};
ghost use Rattle.elf_model.specs.RelSound.{IsRelSound};
ghost use Rattle.link_model.specs.DynamicSymbols.{shown_targets};
ghost use Rattle.link_model.specs.Inputs.{sections_of};
ghost use Rattle.link_model.specs.Needs.{need_tests};
ghost use Rattle.link_model.specs.Targets.{all_name_tests};
ghost use Rattle.link_model.specs.parts.Passes.{Gives};
ghost use Rattle.link_checks.specs.parts.Sited.{HasWordsInside};

use crate::shown::Shown;
use elf_model::RelObjects;
use link_model::{LinkErr, Mode};
use link_names::{Joined, join};
use link_places::{Layout, TextPlaces, gather_needs};
use std::alloc::Global;

/// All that a link has settled of its symbols and its layout.
#[derive(Drop)]
pub struct Linking<'a> {
    /// The symbols, and the files that they are of.
    pub joined: Joined<'a>,
    /// The link addresses.
    pub layout: Layout<'a>,
    /// The symbols that the loader sees.
    pub shown: Shown,
    pub ghost one_mode: { layout.mode ≡ joined.mode },
    pub ghost one_inputs: { layout.text.inputs.now ≡ joined.inputs },
    pub ghost seen: { shown ≡ shown_targets joined.mode joined.inputs },
    pub ghost inside: { All HasWordsInside (sections_of joined.inputs) },
}

impl<'a> Linking<'a> {
    /// Joins the symbols of accepted files, and lays out the linked object. Refuses by `Twice` and `Undefined`, by the
    /// first name in order of appearance that fails a test, and by `TooLarge` where the GOT passes its limit.
    pub fn new(alloc: Global, mode: Mode, inputs: &'a RelObjects) -> Result<Linking<'a>, LinkErr>
        requires { All IsRelSound inputs.now }
        ensures { Gives result (all_name_tests mode inputs.now ++ need_tests mode inputs.now) (λ linking. (linking.joined.mode ≡ mode) × (linking.joined.inputs ≡ inputs.now)) }
    {
        let joined = join(alloc, mode, inputs)?;
        let text = TextPlaces::new(alloc, inputs)?;
        let needs = gather_needs(alloc, &joined, &text)?;
        let layout = Layout::new(alloc, mode, text, needs, joined.targets())?;
        let shown = Shown::of(alloc, &joined)?;
        Ok(Linking {
            joined,
            layout,
            shown,
        })
    }
}
