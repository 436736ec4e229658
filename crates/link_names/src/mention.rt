//! Symbols of inputs.

ghost use Rattle.std.specs.Prelude.{◌≡◌};
ghost use Rattle.link_model.specs.Joined.{is_joined, name_of, defines, is_common};

use elf_model::constants::{STB_LOCAL, STT_SECTION};
use elf_model::{Place, Symbol};
use std::marker::Model;

/// A symbol of an input.
#[derive(Drop)]
pub(crate) struct Mention<'a> {
    /// The number of its input.
    pub(crate) input: u32,
    /// Its number there.
    pub(crate) number: u32,
    /// The symbol.
    pub(crate) symbol: &'a Symbol,
}

impl<'a> Model for Mention<'a> {
    ghost use Rattle.link_model.specs.Inputs.{InputSymbol};

    ghost Value = { InputSymbol };

    ghost view = { λ m. record { input = m.input; number = m.number; symbol = m.symbol.now } };
}

/// Whether a symbol is joined with others by name.
pub fn is_joined(symbol: &Symbol) -> bool
    ensures { result ≡ is_joined symbol.now }
{
    symbol.binding != STB_LOCAL && symbol.kind != STT_SECTION
}

/// Whether a place is a definition.
pub(crate) fn defines(place: Place) -> bool
    ensures { result ≡ defines place }
{
    matches!(place, Place::Absolute | Place::Section(_))
}

/// Whether a place is a common block.
pub(crate) fn is_common(place: Place) -> bool
    ensures { result ≡ is_common place }
{
    matches!(place, Place::Common)
}

impl<'a> Mention<'a> {
    /// Its name; no bytes where it has none.
    pub(crate) fn name(&self) -> &'a [u8]
        ensures { result.now ≡ name_of self.now }
    {
        match &self.symbol.name {
            Some(name) => name.as_slice(),
            None => &[],
        }
    }
}
