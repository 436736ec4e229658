//! Where the sections of the text lie, and what is a function.

ghost use Rattle.std.specs.Option.{option_copied};
ghost use Rattle.std.specs.Prelude.{◌≡◌, ◌≤◌, ◌^◌, not, filter, nat_le, slice_get, IfOk};
ghost use Rattle.link_model.specs.Places.{is_in_data};
ghost use Rattle.link_model.specs.Sections as spec;
ghost use Rattle.link_model.specs.Sections.{has_section};
ghost use Rattle.link_places.specs.parts.Heads.{heads_of, text_heads, is_writable};
ghost use Rattle.link_places.specs.parts.Lying.{AreLaid};

use crate::heads::{SectionHead, SectionHeads, section_heads};
use crate::lying::{Lying, lay_sections};
use elf_model::RelObjects;
use fd_base::{Memory, Seq};
use link_model::Spot;
use std::alloc::Global;

/// Where the sections of the text lie, the first of them at link address 0.
#[derive(Drop)]
pub struct TextPlaces<'a> {
    /// What is linked.
    pub inputs: &'a RelObjects,
    heads: SectionHeads,
    lying: Lying,
    pub ghost listed: { heads ≡ heads_of inputs.now },
    pub ghost laid: { AreLaid 0 (text_heads inputs.now) lying },
    pub ghost near: { lying.end ≤ 2 ^ 60 },
}

/// The sections that a program doesn't write to.
fn text_sections(alloc: Global, heads: &[SectionHead]) -> Result<SectionHeads, Memory>
    ensures { IfOk result (λ text. text ≡ filter (λ h. not (is_writable h)) heads.now) }
{
    let text = heads
        .iter()
        .copied()
        .filter(|head| !head.is_writable())
        .collect(alloc)?;
    Ok(Seq::from_vec(text))
}

impl<'a> TextPlaces<'a> {
    /// Lays the sections of the text of all inputs.
    pub fn new(alloc: Global, inputs: &'a RelObjects) -> Result<TextPlaces<'a>, Memory>
        ensures { IfOk result (λ text. text.inputs.now ≡ inputs.now) }
    {
        let heads = section_heads(alloc, inputs)?;
        let text = text_sections(alloc, heads.as_slice())?;
        let lying = lay_sections(alloc, heads.len(), 0, text.as_slice())?;
        Ok(TextPlaces {
            inputs,
            heads,
            lying,
        })
    }

    /// The sections of all inputs, by number.
    pub fn heads(&self) -> &[SectionHead]
        ensures { result.now ≡ heads_of self.now.inputs.now }
    {
        self.heads.as_slice()
    }

    /// Where the last section of the text ends, a link address.
    pub fn end(&self) -> u64
        ensures end { result ≡ spec.text_sections_end self.now.inputs.now }
        ensures near { result ≤ 2 ^ 60 }
    {
        self.lying.end
    }

    /// The link address of the section of this number, if it is one of the text.
    pub fn place(&self, k: u32) -> u64
        ensures place { result ≡ spec.text_place self.now.inputs.now k }
        ensures near { result ≤ 2 ^ 60 }
    {
        self.lying.place(k)
    }

    /// The section of this number.
    pub(crate) fn head(&self, k: u32) -> Option<&SectionHead>
        ensures { option_copied result ≡ slice_get (heads_of self.now.inputs.now) k }
    {
        self.heads.as_slice().get(k as usize)
    }

    /// Whether the section of this number is one of the text.
    pub fn is_text_section(&self, k: u32) -> bool
        ensures { result ≡ spec.is_text_section self.now.inputs.now k }
    {
        match self.head(k) {
            Some(head) => !head.is_writable(),
            None => false,
        }
    }

    /// Whether the section of this number is one of the text, and of code.
    pub fn is_code_section(&self, k: u32) -> bool
        ensures { result ≡ spec.is_code_section self.now.inputs.now k }
    {
        match self.head(k) {
            Some(head) => head.is_code(),
            None => false,
        }
    }

    /// Whether a definition is in a section of the text.
    pub fn is_in_text(&self, spot: Spot) -> bool
        ensures { result ≡ spec.is_in_text self.now.inputs.now spot }
    {
        match spot {
            Spot::Section(k, _) => self.is_text_section(k),
            _ => false,
        }
    }

    /// Whether a definition is in a section of the data, or is a common block.
    pub fn is_in_data(&self, spot: Spot) -> bool
        ensures { result ≡ is_in_data self.now.inputs.now spot }
    {
        match spot {
            Spot::Section(k, _) => !self.is_text_section(k),
            Spot::Common(_) => true,
            _ => false,
        }
    }

    /// Whether an offset lies in the section of this number, or at its end.
    fn reaches(&self, k: u32, offset: u32) -> bool
        ensures { result ≡ has_section self.now.inputs.now k (λ x. nat_le offset (x.section).size) }
    {
        match self.head(k) {
            Some(head) => offset <= head.size,
            None => false,
        }
    }

    /// Whether a symbol that is defined there is a function: at a multiple of 4, in a section of code or at its end.
    pub fn is_function(&self, spot: Spot) -> bool
        ensures { result ≡ spec.is_function self.now.inputs.now spot }
    {
        match spot {
            Spot::Section(k, offset) => {
                self.is_code_section(k)
                    && self.reaches(k, offset)
                    && (self.place(k) + u64::from(offset)) % 4 == 0
            }
            _ => false,
        }
    }

    /// The link address of a function that is defined there.
    pub fn function_address(&self, spot: Spot) -> u64
        ensures address { result ≡ spec.function_address self.now.inputs.now spot }
        ensures near { result ≤ 2 ^ 61 }
    {
        match spot {
            Spot::Section(k, offset) => self.place(k) + u64::from(offset),
            _ => 0,
        }
    }
}
