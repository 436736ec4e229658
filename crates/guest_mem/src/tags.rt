//! A tag for each aligned word: what is known of its four bytes, so that an access need not look at each.

ghost use Rattle.std.specs.Prelude.{◌≡◌, ◌⊎◌, ℕ, IsTrue, ◌+◌, ◌/◌, ◌≤◌, ◌<◌, ◌^◌, get_or, length};
ghost use Rattle.guest_mem.specs.parts.Tags as spec;
ghost use Rattle.guest_mem.specs.declared.tags.WordTag.TheVariants.{Mixed};

use crate::bytes::fill;
use crate::kind::MemKind;
use crate::search::Asked;

/// What is known of each byte of a word.
#[derive(Clone, Copy, PartialEq, Eq)]
pub enum WordTag {
    /// Nothing.
    Mixed,
    /// It is mapped.
    Readable,
    /// It is Code.
    Code,
    /// It is Data and not watched.
    Plain,
}

/// What is known of a byte that is mapped so and not marked.
pub fn tag_of(kind: Option<MemKind>) -> WordTag
    ensures { result ≡ spec.tag_of kind }
{
    match kind {
        None => WordTag::Mixed,
        Some(MemKind::Code) => WordTag::Code,
        Some(MemKind::Data) => WordTag::Plain,
        Some(MemKind::Fixed) => WordTag::Readable,
    }
}

/// Whether a tag tells that each byte is as asked.
#[inline]
pub fn is_enough(tag: WordTag, asked: Asked) -> bool
    ensures { result ≡ spec.is_enough tag asked }
{
    match asked {
        Asked::Mapped => tag != WordTag::Mixed,
        Asked::Code => tag == WordTag::Code,
    }
}

/// The tag of a word, by its number.
#[inline]
pub fn tag_at(tags: &[WordTag], word: usize) -> WordTag
    ensures { result ≡ get_or tags.now word Mixed }
{
    match tags.get(word) {
        Some(tag) => *tag,
        None => WordTag::Mixed,
    }
}

fn are_same(tag: WordTag, other: WordTag) -> bool
    ensures { IsTrue result → other ≡ tag }
{
    tag == other
}

/// The tag that words one after another share, or one that tells nothing.
pub fn shared_tag(tags: &[WordTag], first: usize, count: usize) -> WordTag
    requires { first + count < 2 ^ 64 }
    ensures { (k : ℕ) → k < count → (result ≡ Mixed) ⊎ (get_or tags.now (first + k) Mixed ≡ result) }
{
    let tag = tag_at(tags, first);
    for i in 0..count {
        if !are_same(tag, tag_at(tags, first + i)) {
            return WordTag::Mixed;
        }
    }
    tag
}

/// The tags after a range of bytes changed: one tag for the words in it, and none for those that reach over its ends.
#[tactic(auto, unfolding(crate::specs::parts::Tags::retagged))]
pub fn retag(tags: &mut [WordTag], start: u32, len: u32, tag: WordTag)
    requires { (start + len + 3) / 4 ≤ length tags.old }
    ensures { tags.new ≡ spec.retagged tags.old start len tag }
{
    let start = start as usize;
    let end = start + len as usize;
    fill(tags, start / 4, (end + 3) / 4 - start / 4, WordTag::Mixed);
    let first = (start + 3) / 4;
    fill(tags, first, (end / 4).saturating_sub(first), tag);
}
