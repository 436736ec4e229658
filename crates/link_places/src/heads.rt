//! The sections of all inputs.

ghost use Rattle.std.specs.Prelude.{◌≡◌, ◌<◌, ◌++◌, ◌&&◌, Contains, length, not, IfOk, OnOk};
ghost use Rattle.link_model.specs.Inputs.{InputSection, sections_of};
ghost use Rattle.link_names.specs.parts.Joining.{HasInput};
ghost use Rattle.link_places.specs.parts.Heads as spec;

use elf_model::constants::{SHF_EXECINSTR, SHF_WRITE, SHT_FINI_ARRAY, SHT_INIT_ARRAY, SHT_NOBITS};
use elf_model::{RelObject, RelObjects, RelSection};
use fd_base::{Memory, Seq};
use link_layout::Piece;
use std::alloc::{AllocError, Global};

/// What the layout asks of a section.
#[derive(Clone, Copy, PartialEq, Eq)]
pub struct SectionHead {
    /// Its number among those of all inputs.
    pub index: u32,
    /// The number of its input.
    pub input: u32,
    /// Its number among those of its input.
    pub number: u32,
    /// `SHT_PROGBITS` and the like.
    pub kind: u32,
    /// `SHF_WRITE` and the like.
    pub flags: u32,
    /// Its alignment in bytes.
    pub align: u32,
    /// Its size in bytes.
    pub size: u32,
}

/// The sections of all inputs, by number.
pub type SectionHeads = Seq<SectionHead>;

/// A number in 32 bits. No memory holds so many things that one has a greater number.
pub(crate) fn number(n: usize) -> Result<u32, Memory>
    ensures { IfOk result (λ k. k ≡ n) }
{
    match u32::try_from(n) {
        Ok(number) => Ok(number),
        Err(_) => Err(AllocError),
    }
}

impl SectionHead {
    fn new(index: u32, input: u32, number: u32, section: &RelSection) -> SectionHead
        ensures { result ≡ spec.head_of (record { index = index; input = input; number = number; section = section.now }) }
    {
        SectionHead {
            index,
            input,
            number,
            kind: section.kind,
            flags: section.flags,
            align: section.align,
            size: section.size,
        }
    }

    /// Whether a program writes to it.
    pub fn is_writable(&self) -> bool
        ensures { result ≡ spec.is_writable self.now }
    {
        self.flags & SHF_WRITE != 0
    }

    /// Whether it has zeros only, and no bytes in the file.
    pub fn is_nobits(&self) -> bool
        ensures { result ≡ spec.is_nobits self.now }
    {
        self.kind == SHT_NOBITS
    }

    /// Whether it is an array of functions that are called at the start or at the end.
    pub fn is_array(&self) -> bool
        ensures { result ≡ spec.is_array self.now }
    {
        self.kind == SHT_INIT_ARRAY || self.kind == SHT_FINI_ARRAY
    }

    /// Whether it holds instructions that a program doesn't write to.
    pub(crate) fn is_code(&self) -> bool
        ensures { result ≡ spec.is_code self.now }
    {
        !self.is_writable() && self.flags & SHF_EXECINSTR != 0
    }

    /// What is placed of it.
    pub(crate) fn piece(&self) -> Piece
        ensures { result ≡ spec.piece_of self.now }
    {
        Piece {
            align: self.align,
            size: self.size,
        }
    }
}

/// Puts the sections of an input behind those of the earlier ones.
fn put_sections(heads: &mut SectionHeads, input: u32, object: &RelObject) -> Result<(), Memory>
    ensures { OnOk result (heads.new ≡ heads.old ++ spec.heads_from (length heads.old) (spec.parts_of input object.now)) }
{
    for (n, section) in object.sections.as_slice().iter().enumerate() {
        let index = number(heads.len())?;
        let number = number(n)?;
        heads.push(SectionHead::new(index, input, number, section))?;
    }
    Ok(())
}

/// The sections of all inputs, those of the first input first.
pub fn section_heads(alloc: Global, inputs: &RelObjects) -> Result<SectionHeads, Memory>
    ensures { IfOk result (λ heads. heads ≡ spec.heads_of inputs.now) }
{
    let mut heads = Seq::new(alloc);
    for (i, object) in inputs.as_slice().iter().enumerate() {
        let input = number(i)?;
        put_sections(&mut heads, input, object)?;
    }
    Ok(heads)
}

/// The section of its number of its input.
pub fn section_of<'a>(inputs: &'a [RelObject], head: &SectionHead) -> &'a RelSection
    requires { HasInput inputs.now head.now.input (λ o. head.now.number < length o.sections) }
    ensures { (x : InputSection) → Contains (sections_of inputs.now) x → head.now.input ≡ x.input → head.now.number ≡ x.number → result.now ≡ x.section }
{
    let object = &inputs[head.input as usize];
    &object.sections.as_slice()[head.number as usize]
}
