//! What is looked up of one relocation.

ghost use Rattle.std.specs.Prelude.{◌≡◌, ◌<◌, ◌^◌, [], option_and_then, slice_get, unwrap_or, if◌then◌else◌};
ghost use Rattle.std.specs.Option.{option_copied};
ghost use Rattle.elf_model.specs.Symbols.{null_symbol};
ghost use Rattle.link_model.specs.DynamicSymbols.{symbol_index};
ghost use Rattle.link_model.specs.Inputs as inputs;
ghost use Rattle.link_model.specs.Needs as needs;
ghost use Rattle.link_model.specs.Places.{plt_entry_of};
ghost use Rattle.link_model.specs.SiteTests as tests;
ghost use Rattle.link_model.specs.Targets as targets;
ghost use Rattle.link_words.specs.parts.Bounds.{AreBounds, AreNearBounds};
ghost use Rattle.link_words.specs.parts.Facts.{AreFacts, AreNear};
ghost use Rattle.link_checks.specs.parts.Found.{offset_at};
ghost use Rattle.link_checks.specs.parts.Sited.{IsInside, IsRel};

use crate::linking::Linking;
use elf_model::constants::{R_ARM_GOT_BREL, R_ARM_GOTFUNCDESC, STB_LOCAL, STT_NOTYPE, STV_DEFAULT};
use elf_model::{Rel, RelObject, RelSection, Symbol};
use fd_base::word_in;
use link_model::{Key, Need, Reach, Spot, Target};
use link_places::{SectionHead, descriptor_need, is_dropped, is_own_undefined};
use link_words::{Bounds, Facts, is_dynamic, is_function_kind};

/// The symbol of this number of an input: none where that is the null symbol of a file without symbols.
fn symbol_of(objects: &[RelObject], input: u32, number: u32) -> Option<&Symbol>
    ensures { option_copied result ≡ option_and_then (λ o. slice_get o.symbols number) (slice_get objects.now input) }
{
    objects
        .get(input as usize)?
        .symbols
        .as_slice()
        .get(number as usize)
}

/// What the null symbol is: nothing.
fn null_target(input: u32, number: u32) -> Target
    ensures { result ≡ targets.own_target [] (record { input = input; number = number; symbol = null_symbol }) }
{
    Target {
        key: Key::Own(input, number),
        spot: Spot::Nowhere,
        reach: Reach::Settled,
        binding: STB_LOCAL,
        kind: STT_NOTYPE,
        visibility: STV_DEFAULT,
        size: 0,
        align: 1,
    }
}

/// Whether a symbol is in a section that isn't kept.
fn is_in_dropped(symbol: Option<&Symbol>) -> bool
    ensures { result ≡ needs.is_dropped (unwrap_or (option_copied symbol.entry) null_symbol).place }
{
    match symbol {
        Some(symbol) => is_dropped(symbol.place),
        None => false,
    }
}

/// Whether a symbol is joined with no other, and nowhere defined.
fn is_nowhere(symbol: Option<&Symbol>) -> bool
    ensures { result ≡ needs.is_own_undefined (unwrap_or (option_copied symbol.entry) null_symbol) }
{
    match symbol {
        Some(symbol) => is_own_undefined(symbol),
        None => true,
    }
}

impl<'a> Linking<'a> {
    /// What the symbol of this number of an input is.
    fn target(&self, input: u32, number: u32) -> Target
        ensures { result ≡ targets.target_of self.now.joined.mode self.now.joined.inputs input number }
    {
        match symbol_of(self.joined.inputs(), input, number) {
            Some(_) => self.joined.target(input, number),
            None => null_target(input, number),
        }
    }

    /// Where the segments lie.
    pub fn bounds(&self) -> Bounds
        ensures bounds { AreBounds self.now.joined.mode self.now.joined.inputs result }
        ensures near { AreNearBounds result }
    {
        Bounds {
            text_end: self.layout.text_end(),
            data_place: self.layout.data_place(),
            data_end: self.layout.data_end(),
        }
    }

    /// The link address of a symbol's entry in the PLT, where the loader settles the symbol, and else 0.
    fn entry(&self, target: &Target) -> u64
        ensures near { result < 2 ^ 61 }
        ensures entry { result ≡ (if targets.is_dynamic target.now.reach then plt_entry_of self.now.joined.mode self.now.joined.inputs target.now.key else 0) }
    {
        if is_dynamic(target.reach) {
            self.layout.plt_entry_of(target.key)
        } else {
            0
        }
    }

    /// The number of a symbol among those that the loader sees, where the loader settles it, and else 0.
    fn number(&self, target: &Target) -> u32
        ensures { result ≡ (if targets.is_dynamic target.now.reach then symbol_index self.now.joined.mode self.now.joined.inputs target.now.key else 0) }
    {
        if is_dynamic(target.reach) {
            self.shown.index(target.key)
        } else {
            0
        }
    }

    /// The offset from the GOT of what a relocation's kind names there of a symbol, in bytes.
    fn offset(&self, kind: u8, target: &Target) -> u32
        ensures { result ≡ offset_at self.now.joined.mode self.now.joined.inputs kind target.now }
    {
        let needs = &self.layout.needs;
        if kind == R_ARM_GOT_BREL {
            needs.offset(Need::Word(target.key))
        } else if kind == R_ARM_GOTFUNCDESC {
            needs.offset(Need::FuncWord(target.key))
        } else if is_function_kind(kind) {
            needs.offset(descriptor_need(&self.layout.text, target))
        } else {
            0
        }
    }

    /// All that is looked up of a relocation of a section.
    pub(crate) fn facts(
        &self,
        head: &SectionHead,
        section: &RelSection,
        rel: &Rel,
        meets_earlier: bool,
    ) -> Facts
        requires { IsInside section.now rel.now }
        ensures near { AreNear result }
        ensures facts { (x : inputs.InputRel) → IsRel x head.now section.now rel.now → meets_earlier ≡ tests.meets_earlier x
            → AreFacts self.now.joined.mode self.now.joined.inputs x result }
    {
        let symbol = symbol_of(self.joined.inputs(), head.input, rel.symbol);
        let target = self.target(head.input, rel.symbol);
        let text = &self.layout.text;
        Facts {
            kind: rel.kind,
            word: word_in(section.filled.as_slice(), rel.site as usize),
            place: self.layout.section_place(head.index) + u64::from(rel.site),
            is_writable: head.is_writable(),
            meets_earlier,
            is_dropped: is_in_dropped(symbol),
            is_own_undefined: is_nowhere(symbol),
            target,
            address: self.layout.address_of(target.spot),
            in_text: text.is_in_text(target.spot),
            in_data: text.is_in_data(target.spot),
            is_function: text.is_function(target.spot),
            bounds: self.bounds(),
            entry: self.entry(&target),
            offset: self.offset(rel.kind, &target),
            symbol: self.number(&target),
        }
    }
}
