//! Where everything of a linked object lies.

ghost use Rattle.std.specs.Prelude.{◌≡◌, ◌≤◌, ◌<◌, ◌+◌, ◌^◌, IfOk};
ghost use Rattle.link_model.specs.Needs.{all_needs, slot_keys};
ghost use Rattle.link_model.specs.Places as spec;
ghost use Rattle.link_model.specs.Targets.{targets_of};
ghost use Rattle.std.specs.List.{filter_map};
ghost use Rattle.link_places.specs.parts.Data.{data_heads};
ghost use Rattle.link_places.specs.parts.Heads.{heads_of};
ghost use Rattle.link_places.specs.parts.Lying.{AreLaid, ArePlaced};
ghost use Rattle.link_places.specs.parts.Blocks.{block_of};
ghost use Rattle.link_places.specs.parts.NeedTable.{needs_of};

use crate::blocks::lay_blocks;
use crate::data::DataPlaces;
use crate::lying::Lying;
use crate::needs::NeedTable;
use crate::text::TextPlaces;
use fd_base::Memory;
use link_model::{Key, Mode, Need, PLT_ENTRY_SIZE, SEGMENT_STEP, Spot, Target};
use std::alloc::Global;

/// Where everything of a linked object lies. Link addresses are whole numbers, and may pass 32 bits.
#[derive(Drop)]
pub struct Layout<'a> {
    /// What is made.
    pub mode: Mode,
    /// The text.
    pub text: TextPlaces<'a>,
    /// What stands in the GOT.
    pub needs: NeedTable,
    data_place: u64,
    places: DataPlaces,
    blocks: Lying,
    pub ghost wanted: { needs_of needs ≡ all_needs mode text.inputs.now },
    pub ghost begin: { data_place ≡ spec.data_place mode text.inputs.now },
    pub ghost laid: { AreLaid (spec.got_end mode text.inputs.now) (data_heads (heads_of text.inputs.now)) places.lying },
    pub ghost shared: { ArePlaced (spec.zeros_end mode text.inputs.now) (filter_map block_of (targets_of mode text.inputs.now)) blocks },
    pub ghost near: { places.lying.end ≤ 2 ^ 60 + 2 ^ 42 },
    pub ghost blocks_near: { blocks.end ≤ 2 ^ 60 + 2 ^ 42 },
    pub ghost begin_near: { data_place ≤ 2 ^ 60 + 2 ^ 41 },
    pub ghost filled_near: { places.filled_end ≤ 2 ^ 60 + 2 ^ 42 },
    pub ghost filled: { places.filled_end ≡ spec.filled_end mode text.inputs.now },
}

/// Where the first entry of the PLT stands, behind the sections of the text.
fn plt_place(text: &TextPlaces) -> u64
    ensures place { result ≡ spec.plt_place text.now.inputs.now }
    ensures near { result ≤ 2 ^ 60 + 3 }
{
    (text.end() + 3) / 4 * 4
}

/// Where the text ends, with its PLT.
fn text_end(mode: Mode, text: &TextPlaces, needs: &NeedTable) -> u64
    requires { needs_of needs.now ≡ all_needs mode text.now.inputs.now }
    ensures end { result ≡ spec.text_end mode text.now.inputs.now }
    ensures near { result ≤ 2 ^ 60 + 2 ^ 40 }
{
    let slots = needs.slot_count();
    if slots == 0 {
        text.end()
    } else {
        plt_place(text) + u64::from(PLT_ENTRY_SIZE) * u64::from(slots)
    }
}

impl<'a> Layout<'a> {
    /// Lays the data behind the text; `targets` are the symbols of all names.
    pub fn new(
        alloc: Global,
        mode: Mode,
        text: TextPlaces<'a>,
        needs: NeedTable,
        targets: &[Target],
    ) -> Result<Layout<'a>, Memory>
        requires needs { needs_of needs ≡ all_needs mode text.inputs.now }
        requires targets { targets.now ≡ targets_of mode text.inputs.now }
        ensures mode { IfOk result (λ layout. layout.mode ≡ mode) }
        ensures inputs { IfOk result (λ layout. layout.text.inputs.now ≡ text.entry.inputs.now) }
    {
        let text_end = text_end(mode, &text, &needs);
        let data_place = (text_end / u64::from(SEGMENT_STEP) + 1) * u64::from(SEGMENT_STEP);
        let got_end = data_place + u64::from(needs.got_size());
        let places = DataPlaces::new(alloc, &text, got_end)?;
        let blocks = lay_blocks(alloc, places.lying.end, targets)?;
        Ok(Layout {
            mode,
            text,
            needs,
            data_place,
            places,
            blocks,
        })
    }

    /// Where the text ends, with its PLT.
    pub fn text_end(&self) -> u64
        ensures near { result < 2 ^ 61 }
        ensures end { result ≡ spec.text_end self.now.mode self.now.text.inputs.now }
    {
        text_end(self.mode, &self.text, &self.needs)
    }

    /// Where the first entry of the PLT stands, behind the sections of the text.
    pub fn plt_place(&self) -> u64
        ensures near { result < 2 ^ 61 }
        ensures place { result ≡ spec.plt_place self.now.text.inputs.now }
    {
        plt_place(&self.text)
    }

    /// The symbols that have slots and entries of the PLT, by number of the slot.
    pub fn slot_keys(&self) -> &[Key]
        ensures { result.now ≡ slot_keys self.now.mode self.now.text.inputs.now }
    {
        self.needs.slot_keys()
    }

    /// The entry of the PLT of a symbol that has one.
    pub fn plt_entry_of(&self, key: Key) -> u64
        ensures near { result < 2 ^ 61 }
        ensures place { result ≡ spec.plt_entry_of self.now.mode self.now.text.inputs.now key }
    {
        plt_place(&self.text) + u64::from(PLT_ENTRY_SIZE) * u64::from(self.needs.slot_number(key))
    }

    /// Where the data begins, with the GOT.
    pub fn data_place(&self) -> u64
        ensures near { result < 2 ^ 61 }
        ensures place { result ≡ spec.data_place self.now.mode self.now.text.inputs.now }
    {
        self.data_place
    }

    /// Where the GOT ends.
    pub fn got_end(&self) -> u64
        ensures near { result < 2 ^ 61 }
        ensures end { result ≡ spec.got_end self.now.mode self.now.text.inputs.now }
    {
        self.data_place + u64::from(self.needs.got_size())
    }

    /// Where the sections of the data end that the file has bytes of.
    pub fn filled_end(&self) -> u64
        ensures near { result < 2 ^ 61 }
        ensures end { result ≡ spec.filled_end self.now.mode self.now.text.inputs.now }
    {
        self.places.filled_end
    }

    /// Where the sections of the data end.
    pub fn zeros_end(&self) -> u64
        ensures near { result < 2 ^ 61 }
        ensures end { result ≡ spec.zeros_end self.now.mode self.now.text.inputs.now }
    {
        self.places.lying.end
    }

    /// The link address of the section of this number.
    pub fn section_place(&self, k: u32) -> u64
        ensures place { result ≡ spec.section_place self.now.mode self.now.text.inputs.now k }
        ensures near { result ≤ 2 ^ 60 + 2 ^ 42 }
    {
        if self.text.is_text_section(k) {
            self.text.place(k)
        } else {
            self.places.lying.place(k)
        }
    }

    /// The link address of the common block of the name of this number.
    pub fn block_place(&self, k: u32) -> u64
        ensures place { result ≡ spec.block_place self.now.mode self.now.text.inputs.now k }
        ensures near { result ≤ 2 ^ 60 + 2 ^ 42 }
    {
        self.blocks.place(k)
    }

    /// Where the data ends, with its common blocks.
    pub fn data_end(&self) -> u64
        ensures near { result < 2 ^ 61 }
        ensures end { result ≡ spec.data_end self.now.mode self.now.text.inputs.now }
    {
        self.blocks.end
    }

    /// Where a need stands in the GOT, a link address.
    pub fn need_place(&self, need: Need) -> u64
        ensures near { result < 2 ^ 61 }
        ensures place { result ≡ spec.need_place self.now.mode self.now.text.inputs.now need }
    {
        self.data_place + u64::from(self.needs.offset(need))
    }

    /// The link address of a definition, or the number that it is.
    pub fn address_of(&self, spot: Spot) -> u64
        ensures near { result < 2 ^ 61 }
        ensures address { result ≡ spec.address_of self.now.mode self.now.text.inputs.now spot }
    {
        match spot {
            Spot::Nowhere => 0,
            Spot::Absolute(number) => u64::from(number),
            Spot::Section(k, offset) => self.section_place(k) + u64::from(offset),
            Spot::Common(k) => self.block_place(k),
        }
    }

    /// Whether a definition is in a section of the text, and lies in the text or at its end.
    pub fn is_within_text(&self, spot: Spot) -> bool
        ensures { result ≡ spec.is_within_text self.now.mode self.now.text.inputs.now spot }
    {
        self.text.is_in_text(spot) && self.address_of(spot) <= self.text_end()
    }

    /// Whether a definition is in the data, and lies in it or at its end.
    pub fn is_within_data(&self, spot: Spot) -> bool
        ensures { result ≡ spec.is_within_data self.now.mode self.now.text.inputs.now spot }
    {
        self.text.is_in_data(spot) && self.address_of(spot) <= self.data_end()
    }
}
