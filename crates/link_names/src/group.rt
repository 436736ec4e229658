//! What all symbols of a name say together.

ghost use Rattle.std.specs.Prelude.{◌≡◌, ◌&&◌, ◌==◌, nat_le, find, length};
ghost use Rattle.std.specs.List.{list_any};
ghost use Rattle.std.specs.Option.{option_copied};
ghost use Rattle.elf_model.specs.declared.constants.TheConstants.{STB_GLOBAL};
ghost use Rattle.link_model.specs.Joined as spec;

use crate::mention::{Mention, defines, is_common};
use elf_model::constants::{
    MAX_SECTION_ALIGN, STB_GLOBAL, STB_WEAK, STV_DEFAULT, STV_HIDDEN, STV_INTERNAL, STV_PROTECTED,
};

/// The first definition of a binding.
fn first_definition<'g, 'a>(binding: u8, group: &'g [Mention<'a>]) -> Option<&'g Mention<'a>>
    ensures { option_copied result ≡ find (λ x. spec.defines (x.symbol).place && (x.symbol).binding == binding) group.now }
{
    group
        .iter()
        .find(|x| defines(x.symbol.place) && x.symbol.binding == binding)
}

/// The first common block.
fn first_common<'g, 'a>(group: &'g [Mention<'a>]) -> Option<&'g Mention<'a>>
    ensures { option_copied result ≡ find (λ x. spec.is_common (x.symbol).place) group.now }
{
    group.iter().find(|x| is_common(x.symbol.place))
}

/// The definition that is taken: the first global one, else the first common block, else the first weak one.
#[tactic(auto, using(crate::proofs::Lists::taken_first))]
pub(crate) fn definition_taken<'g, 'a>(group: &'g [Mention<'a>]) -> Option<&'g Mention<'a>>
    ensures { option_copied result ≡ spec.definition_taken group.now }
{
    first_definition(STB_GLOBAL, group)
        .or(first_common(group))
        .or(first_definition(STB_WEAK, group))
}

/// How many global definitions there are.
pub(crate) fn global_definitions(group: &[Mention]) -> usize
    ensures { result ≡ length (spec.definitions_of STB_GLOBAL group.now) }
{
    group
        .iter()
        .filter(|x| defines(x.symbol.place) && x.symbol.binding == STB_GLOBAL)
        .count()
}

/// Whether some symbol has a visibility.
fn has_visibility(group: &[Mention], visibility: u8) -> bool
    ensures { result ≡ list_any (λ x. (x.symbol).visibility == visibility) group.now }
{
    group.iter().any(|x| x.symbol.visibility == visibility)
}

/// The most constraining visibility.
pub(crate) fn visibility_of(group: &[Mention]) -> u8
    ensures { result ≡ spec.visibility_of group.now }
{
    if has_visibility(group, STV_INTERNAL) {
        STV_INTERNAL
    } else if has_visibility(group, STV_HIDDEN) {
        STV_HIDDEN
    } else if has_visibility(group, STV_PROTECTED) {
        STV_PROTECTED
    } else {
        STV_DEFAULT
    }
}

/// Whether all are weak.
pub(crate) fn all_weak(group: &[Mention]) -> bool
    ensures { result ≡ spec.all_weak group.now }
{
    group.iter().all(|x| x.symbol.binding == STB_WEAK)
}

/// The size of the largest common block, in bytes.
pub(crate) fn common_size(group: &[Mention]) -> u32
    ensures { result ≡ spec.common_size group.now }
{
    group
        .iter()
        .filter(|x| is_common(x.symbol.place))
        .fold(0, |size, x| size.max(x.symbol.size))
}

/// The alignments that a common block can have, in bytes.
const ALIGNMENTS: [u32; 13] = [1, 2, 4, 8, 16, 32, 64, 128, 256, 512, 1024, 2048, 4096];

/// The first alignment that is a value or more.
fn first_from(alignments: &[u32], value: u32) -> Option<&u32>
    ensures { option_copied result ≡ find (nat_le value) alignments.now }
{
    alignments.iter().find(|align| value <= **align)
}

/// The alignment of a common block, in bytes.
fn common_alignment(x: &Mention) -> u32
    ensures { result ≡ spec.common_alignment x.now }
{
    first_from(&ALIGNMENTS, x.symbol.value)
        .copied()
        .unwrap_or(MAX_SECTION_ALIGN)
}

/// The greatest alignment of the common blocks, in bytes.
pub(crate) fn common_align(group: &[Mention]) -> u32
    ensures { result ≡ spec.common_align group.now }
{
    group
        .iter()
        .filter(|x| is_common(x.symbol.place))
        .fold(1, |align, x| align.max(common_alignment(x)))
}
