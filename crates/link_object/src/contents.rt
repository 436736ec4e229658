//! The contents of the sections of a segment.

ghost use Rattle.std.specs.Prelude.{◌≡◌, ◌<◌, ◌^◌, List, Contains, filter, IfOk};
ghost use Rattle.elf_model.specs.declared.relocatable.RelObject.{RelObject};
ghost use Rattle.link_model.specs.declared.input.Mode.{Mode};
ghost use Rattle.link_model.specs.Inputs.{InputSection, sections_of};
ghost use Rattle.link_model.specs.Places as places;
ghost use Rattle.link_places.specs.parts.Heads.{head_of, heads_of};
ghost use Rattle.link_words.specs.parts.Contents.{AreContentsOf, IsContentOf};
ghost use Rattle.link_object.specs.parts.Filled.{is_copied, is_of_part};

use fd_base::{Memory, Seq};
use link_places::{Layout, SectionHead, section_of};
use link_words::Content;
use std::alloc::Global;

/// The contents of sections, by number.
pub(crate) type Contents<'a> = Seq<Content<'a>>;

fn content_of<'a>(layout: &Layout<'a>, head: &SectionHead) -> Content<'a>
    requires known { Contains (heads_of layout.now.text.inputs.now) head.now }
    requires small { places.data_end layout.now.mode layout.now.text.inputs.now < 2 ^ 32 }
    ensures { (x : InputSection) → Contains (sections_of layout.now.text.inputs.now) x → head.now ≡ head_of x
        → IsContentOf layout.now.mode layout.now.text.inputs.now x result }
{
    Content {
        place: layout.section_place(head.index) as u32,
        bytes: section_of(layout.text.inputs.as_slice(), head)
            .filled
            .as_slice(),
    }
}

/// Whether a program writes to a section, or doesn't.
pub(crate) fn is_of_part(head: &SectionHead, is_writable: bool) -> bool
    ensures { (x : InputSection) → head.now ≡ head_of x → result ≡ is_of_part is_writable x }
{
    head.is_writable() == is_writable
}

/// Whether the contents of a section are copied, where those are that a program writes to, or the others.
fn is_copied(head: &SectionHead, content: &Content<'_>, is_writable: bool) -> bool
    ensures { (mode : Mode) (inputs : List RelObject) (x : InputSection) → head.now ≡ head_of x → IsContentOf mode inputs x content.now
        → result ≡ is_copied is_writable x }
{
    head.is_writable() == is_writable && !content.bytes.is_empty()
}

/// The contents of the sections that a program writes to, or of the others, as far as the file has bytes of them.
pub(crate) fn contents<'a>(
    alloc: Global,
    layout: &Layout<'a>,
    is_writable: bool,
) -> Result<Contents<'a>, Memory>
    requires { places.data_end layout.now.mode layout.now.text.inputs.now < 2 ^ 32 }
    ensures { IfOk result (λ contents. AreContentsOf layout.now.mode layout.now.text.inputs.now
        (filter (is_copied is_writable) (sections_of layout.now.text.inputs.now)) contents) }
{
    let mut contents = Seq::new(alloc);
    for head in layout.text.heads() {
        let content = content_of(layout, head);
        if is_copied(head, &content, is_writable) {
            contents.push(content)?;
        }
    }
    Ok(contents)
}
