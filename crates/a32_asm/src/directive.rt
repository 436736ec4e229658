//! The names of directives.

ghost use Rattle.std.specs.Prelude.{◌≡◌, ◌<◌, IfSome};
ghost use Rattle.a32_asm.specs.Directive as spec;
ghost use Rattle.a32_asm.specs.parts.Fits.{IsDirective};

use crate::section::section_of;
use elf_model::constants::{STV_HIDDEN, STV_PROTECTED};

/// A directive.
#[derive(Clone, Copy, Debug)]
pub enum Directive {
    /// `.text` and the like.
    Section(u8),
    /// `.global`, and `.weak`.
    Bind { weak: bool },
    /// `.hidden` and `.protected`.
    Show { visibility: u8 },
    /// `.type`.
    Kind,
    Word,
    Byte,
    Asciz,
    Space,
    Align,
}

/// Directives that say something of a name.
#[tactic(auto, unfolding(crate::specs::Directive::naming))]
fn naming(word: &[u8]) -> Option<Directive>
    ensures value { result ≡ spec.naming word.now }
    ensures fit { IfSome result IsDirective }
{
    if word == b".global".as_slice() {
        return Some(Directive::Bind { weak: false });
    }
    if word == b".weak".as_slice() {
        return Some(Directive::Bind { weak: true });
    }
    if word == b".hidden".as_slice() {
        return Some(Directive::Show {
            visibility: STV_HIDDEN,
        });
    }
    if word == b".protected".as_slice() {
        return Some(Directive::Show {
            visibility: STV_PROTECTED,
        });
    }
    if word == b".type".as_slice() {
        return Some(Directive::Kind);
    }
    None
}

/// Directives that put bytes.
#[tactic(auto, unfolding(crate::specs::Directive::putting))]
fn putting(word: &[u8]) -> Option<Directive>
    ensures value { result ≡ spec.putting word.now }
    ensures fit { IfSome result IsDirective }
{
    if word == b".word".as_slice() {
        return Some(Directive::Word);
    }
    if word == b".byte".as_slice() {
        return Some(Directive::Byte);
    }
    if word == b".asciz".as_slice() {
        return Some(Directive::Asciz);
    }
    if word == b".space".as_slice() {
        return Some(Directive::Space);
    }
    if word == b".align".as_slice() {
        return Some(Directive::Align);
    }
    None
}

/// The directive of a name.
#[tactic(auto, unfolding(crate::specs::Directive::directive_of))]
pub(crate) fn directive_of(word: &[u8]) -> Option<Directive>
    ensures value { result ≡ spec.directive_of word.now }
    ensures fit { IfSome result IsDirective }
{
    if let Some(number) = section_of(word) {
        return Some(Directive::Section(number));
    }
    if let Some(directive) = naming(word) {
        return Some(directive);
    }
    putting(word)
}

/// Whether it puts bytes that need not be zeros: in `.bss` none may.
pub(crate) fn is_filling(directive: Directive) -> bool
    ensures { result ≡ spec.is_filling directive }
{
    match directive {
        Directive::Word => true,
        Directive::Byte => true,
        Directive::Asciz => true,
        Directive::Section(_) => false,
        Directive::Bind { weak: _ } => false,
        Directive::Show { visibility: _ } => false,
        Directive::Kind => false,
        Directive::Space => false,
        Directive::Align => false,
    }
}
