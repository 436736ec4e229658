//! The bytes of a segment.

ghost use Rattle.std.specs.Prelude.{ℕ, ◌≡◌, ◌+◌, ◌-◌, ◌<◌, ◌≤◌, All, List, length, slice_index, if◌then◌else◌};
ghost use Rattle.fd_base.specs.Ranges.{is_in};
ghost use Rattle.elf_model.specs.declared.relocatable.RelObject.{RelObject};
ghost use Rattle.link_model.specs.declared.input.Mode.{Mode};
ghost use Rattle.link_model.specs.Inputs.{InputSection};
ghost use Rattle.link_model.specs.Segments.{section_byte};
ghost use Rattle.link_words.specs.parts.Contents.{LiesIn, AreContentsOf, content_over};

/// The contents of a section.
#[derive(Clone, Copy)]
pub struct Content<'a> {
    /// The link address of the section.
    pub place: u32,
    /// Its bytes.
    pub bytes: &'a [u8],
}

/// Copies contents that lie at a link address into the bytes from another one on.
fn put_one(bytes: &mut [u8], start: u32, place: u32, contents: &[u8])
    requires from { start ≤ place }
    requires to { place + length contents.now ≤ start + length bytes.old }
    ensures { (i : ℕ) → i < length bytes.old → slice_index bytes.new i
        ≡ (if is_in place (length contents.now) (start + i) then slice_index contents.now (start + i - place) else slice_index bytes.old i) }
{
    let at = (place - start) as usize;
    bytes[at..at + contents.len()].copy_from_slice(contents);
}

/// Copies contents into the bytes from a link address on, the last one first: where several have a byte, that of the
/// first of them stands.
fn copy_contents(bytes: &mut [u8], start: u32, contents: &[Content<'_>])
    requires { All (LiesIn start (length bytes.old)) contents.now }
    ensures { (i : ℕ) → i < length bytes.old
        → slice_index bytes.new i ≡ content_over contents.now (λ v. slice_index bytes.old (v - start)) (start + i) }
{
    let mut left = contents.len();
    while left > 0 {
        left -= 1;
        let content = contents[left];
        put_one(bytes, start, content.place, content.bytes);
    }
}

/// Copies the contents of sections into the bytes of a segment, which begin at a link address: where several have a
/// byte, that of the first of them stands. Over zeros this gives the bytes of the sections.
pub fn put_contents(bytes: &mut [u8], start: u32, contents: &[Content<'_>])
    requires { All (LiesIn start (length bytes.old)) contents.now }
    ensures bytes { (i : ℕ) → i < length bytes.old
        → slice_index bytes.new i ≡ content_over contents.now (λ v. slice_index bytes.old (v - start)) (start + i) }
    ensures sections { (mode : Mode) (inputs : List RelObject) (xs : List InputSection) (i : ℕ)
        → AreContentsOf mode inputs xs contents.now → i < length bytes.old → slice_index bytes.old i ≡ 0
        → slice_index bytes.new i ≡ section_byte mode inputs xs (start + i) }
{
    copy_contents(bytes, start, contents);
}
