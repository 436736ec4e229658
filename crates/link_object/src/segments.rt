//! The two segments and their bytes in the file.

ghost use Rattle.std.specs.Prelude.{◌≡◌, ℕ, ◌+◌, ◌-◌, ◌^◌, ◌<◌, ◌≤◌, All, List, filter, length, map, slice_index, vec_len, IfOk};
ghost use Rattle.std.specs.List.{range_with_len};
ghost use Rattle.elf_model.specs.RelSound.{IsRelSound};
ghost use Rattle.elf_model.specs.declared.relocatable.RelObject.{RelObject};
ghost use Rattle.load_image.specs.parts.Bounds.{IsWordWhole};
ghost use Rattle.load_model.specs.Image.{byte_over};
ghost use Rattle.link_model.specs.declared.input.Mode.{Mode};
ghost use Rattle.link_model.specs.Inputs.{InputSection, sections_of};
ghost use Rattle.link_model.specs.Joined.{greatest};
ghost use Rattle.link_model.specs.Places as places;
ghost use Rattle.link_model.specs.Segments as spec;
ghost use Rattle.link_model.specs.Targets.{targets_of};
ghost use Rattle.link_places.specs.parts.Heads.{head_of};
ghost use Rattle.link_words.specs.parts.Contents.{AreContentsOf, LiesIn};
ghost use Rattle.link_object.specs.parts.Filled.{file_start, file_end, is_of_part, is_filled_text, text_end_of};

use crate::contents::{contents, is_of_part};
use elf_model::constants::{PF_R, PF_W, PF_X};
use elf_model::{Segment, Segments};
use fd_base::{Bytes, Memory, Seq};
use link_model::{Spot, Target};
use link_places::{Layout, SectionHead};
use link_words::{Content, put_contents};
use load_image::write_words;
use load_model::LinkWord;
use std::alloc::Global;

/// Copies contents into the bytes from a link address on, which are zeros, and writes words over them.
fn fill(bytes: &mut [u8], start: u32, contents: &[Content<'_>], words: &[LinkWord])
    requires end { start + length bytes.old < 2 ^ 32 }
    requires inside { All (LiesIn start (length bytes.old)) contents.now }
    requires whole { All (IsWordWhole start (length bytes.old)) words.now }
    requires zeros { (i : ℕ) → slice_index bytes.old i ≡ 0 }
    ensures { (mode : Mode) (inputs : List RelObject) (xs : List InputSection) (i : ℕ) → AreContentsOf mode inputs xs contents.now
        → i < length bytes.old → slice_index bytes.new i ≡ byte_over words.now (spec.section_byte mode inputs xs) (start + i) }
{
    put_contents(bytes, start, contents);
    write_words(bytes, start, words);
}

/// Fills bytes, which keep their number.
fn fill_all(bytes: &mut Vec<u8>, start: u32, contents: &[Content<'_>], words: &[LinkWord])
    requires end { start + vec_len bytes.old < 2 ^ 32 }
    requires inside { All (LiesIn start (vec_len bytes.old)) contents.now }
    requires whole { All (IsWordWhole start (vec_len bytes.old)) words.now }
    requires zeros { (i : ℕ) → slice_index bytes.old.items i ≡ 0 }
    ensures bytes { (mode : Mode) (inputs : List RelObject) (xs : List InputSection) (i : ℕ) → AreContentsOf mode inputs xs contents.now
        → i < length bytes.old.items → slice_index bytes.new.items i ≡ byte_over words.now (spec.section_byte mode inputs xs) (start + i) }
    ensures len { length bytes.new.items ≡ length bytes.old.items }
{
    fill(bytes, start, contents, words);
}

/// The bytes from a link address up to another: contents, and words over them.
fn bytes_between(
    alloc: Global,
    start: u32,
    end: u32,
    contents: &[Content<'_>],
    words: &[LinkWord],
) -> Result<Bytes, Memory>
    requires order { start ≤ end }
    requires inside { All (LiesIn start (end - start)) contents.now }
    requires whole { All (IsWordWhole start (end - start)) words.now }
    ensures { (mode : Mode) (inputs : List RelObject) (xs : List InputSection) → AreContentsOf mode inputs xs contents.now
        → IfOk result (λ bytes. bytes ≡ map (byte_over words.now (spec.section_byte mode inputs xs)) (range_with_len start (end - start))) }
{
    let mut bytes = vec![in alloc; 0; (end - start) as usize]?;
    fill_all(&mut bytes, start, contents, words);
    Ok(Seq::from_vec(bytes))
}

/// The file's bytes of the data, or of the text, from a link address up to another.
fn linked_bytes(
    alloc: Global,
    layout: &Layout<'_>,
    words: &[LinkWord],
    is_writable: bool,
    start: u32,
    end: u32,
) -> Result<Bytes, Memory>
    requires sound { All IsRelSound layout.now.text.inputs.now }
    requires small { places.data_end layout.now.mode layout.now.text.inputs.now < 2 ^ 32 }
    requires words { words.now ≡ spec.words_of layout.now.mode layout.now.text.inputs.now }
    requires start { start ≡ file_start layout.now.mode layout.now.text.inputs.now is_writable }
    requires end { end ≡ file_end layout.now.mode layout.now.text.inputs.now is_writable }
    ensures { IfOk result (λ bytes. bytes ≡ spec.linked_bytes layout.now.mode layout.now.text.inputs.now start end) }
{
    let contents = contents(alloc, layout, is_writable)?;
    bytes_between(alloc, start, end, contents.as_slice(), words)
}

/// The greatest alignment of the sections that a program writes to, or of the others.
fn greatest_align(layout: &Layout<'_>, is_writable: bool) -> u32
    ensures { result ≡ spec.greatest_align (filter (is_of_part is_writable) (sections_of layout.now.text.inputs.now)) }
{
    let mut align = 16;
    for head in layout.text.heads() {
        if is_of_part(head, is_writable) {
            align = align.max(head.align);
        }
    }
    align
}

/// The greatest alignment of the common blocks among symbols, and of what has another one.
fn with_blocks(align: u32, targets: &[Target]) -> u32
    ensures { (mode : Mode) (inputs : List RelObject) → targets.now ≡ targets_of mode inputs
        → result ≡ greatest align (λ t. t.align) (places.blocks_of mode inputs) }
{
    let mut greatest = align;
    for target in targets {
        if matches!(target.spot, Spot::Common(_)) {
            greatest = greatest.max(target.align);
        }
    }
    greatest
}

/// Whether a section is one of the text, and not one of zeros.
fn is_filled_text(head: &SectionHead) -> bool
    ensures { (x : InputSection) → head.now ≡ head_of x → result ≡ is_filled_text x }
{
    !head.is_writable() && !head.is_nobits()
}

/// Where the last section of the text ends that isn't one of zeros.
fn filled_sections_end(layout: &Layout<'_>) -> u64
    ensures { result ≡ greatest 0 (text_end_of layout.now.text.inputs.now) (filter is_filled_text (sections_of layout.now.text.inputs.now)) }
{
    let mut end = 0;
    for head in layout.text.heads() {
        if is_filled_text(head) {
            end = end.max(layout.text.place(head.index) + u64::from(head.size));
        }
    }
    end
}

/// Where the bytes of the text end that the file has.
fn text_filled_end(layout: &Layout<'_>) -> u64
    ensures { result ≡ spec.text_filled_end layout.now.mode layout.now.text.inputs.now }
{
    if layout.needs.slot_count() == 0 {
        filled_sections_end(layout)
    } else {
        layout.text_end()
    }
}

fn text_segment(alloc: Global, layout: &Layout<'_>, words: &[LinkWord]) -> Result<Segment, Memory>
    requires sound { All IsRelSound layout.now.text.inputs.now }
    requires small { places.data_end layout.now.mode layout.now.text.inputs.now < 2 ^ 32 }
    requires words { words.now ≡ spec.words_of layout.now.mode layout.now.text.inputs.now }
    ensures { IfOk result (λ segment. segment ≡ spec.text_segment layout.now.mode layout.now.text.inputs.now) }
{
    let filled_end = text_filled_end(layout) as u32;
    Ok(Segment {
        vaddr: 0,
        memsz: layout.text_end() as u32,
        flags: PF_R + PF_X,
        align: greatest_align(layout, false),
        filled: linked_bytes(alloc, layout, words, false, 0, filled_end)?,
    })
}

fn data_segment(
    alloc: Global,
    layout: &Layout<'_>,
    targets: &[Target],
    words: &[LinkWord],
) -> Result<Segment, Memory>
    requires sound { All IsRelSound layout.now.text.inputs.now }
    requires small { places.data_end layout.now.mode layout.now.text.inputs.now < 2 ^ 32 }
    requires targets { targets.now ≡ targets_of layout.now.mode layout.now.text.inputs.now }
    requires words { words.now ≡ spec.words_of layout.now.mode layout.now.text.inputs.now }
    ensures { IfOk result (λ segment. segment ≡ spec.data_segment layout.now.mode layout.now.text.inputs.now) }
{
    let vaddr = layout.data_place() as u32;
    let filled_end = layout.filled_end() as u32;
    Ok(Segment {
        vaddr,
        memsz: (layout.data_end() - layout.data_place()) as u32,
        flags: PF_R + PF_W,
        align: with_blocks(greatest_align(layout, true), targets),
        filled: linked_bytes(alloc, layout, words, true, vaddr, filled_end)?,
    })
}

/// The segments of what lies so, with these words written over the contents of the sections; `targets` are the symbols
/// of all names.
pub(crate) fn linked_segments(
    alloc: Global,
    layout: &Layout<'_>,
    targets: &[Target],
    words: &[LinkWord],
) -> Result<Segments, Memory>
    requires sound { All IsRelSound layout.now.text.inputs.now }
    requires small { places.data_end layout.now.mode layout.now.text.inputs.now < 2 ^ 32 }
    requires targets { targets.now ≡ targets_of layout.now.mode layout.now.text.inputs.now }
    requires words { words.now ≡ spec.words_of layout.now.mode layout.now.text.inputs.now }
    ensures { IfOk result (λ segments. segments ≡ spec.segments_of layout.now.mode layout.now.text.inputs.now) }
{
    let mut segments = Seq::new(alloc);
    if layout.text_end() > 0 {
        segments.push(text_segment(alloc, layout, words)?)?;
    }
    segments.push(data_segment(alloc, layout, targets, words)?)?;
    Ok(segments)
}
