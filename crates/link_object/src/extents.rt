//! The arrays of functions that are called at the start and at the end.

ghost use Rattle.std.specs.Prelude.{◌≡◌, ◌+◌, ◌^◌, ◌<◌, ◌++◌, All, List, filter, map, IfOk, OnOk};
ghost use Rattle.elf_model.specs.declared.constants.TheConstants.{SHT_INIT_ARRAY, SHT_FINI_ARRAY};
ghost use Rattle.link_model.specs.Inputs.{InputSection};
ghost use Rattle.link_model.specs.Object.{extent_of, inits_for, sections_of_kind};
ghost use Rattle.link_model.specs.Places as places;
ghost use Rattle.link_places.specs.parts.Heads.{head_of, heads_of};
ghost use Rattle.link_object.specs.parts.Arrays.{is_of_kind, EndsLow, IsArrayKind};

use elf_model::constants::{SHT_FINI_ARRAY, SHT_INIT_ARRAY};
use elf_model::{Extent, Inits};
use fd_base::{Memory, Seq};
use link_places::{Layout, SectionHead, SectionHeads};
use std::alloc::Global;

/// Puts the sections of a kind behind others: those that a program writes to, or the others.
fn put_of_kind(
    sections: &mut SectionHeads,
    heads: &[SectionHead],
    kind: u32,
    is_writable: bool,
) -> Result<(), Memory>
    ensures { OnOk result (sections.new ≡ sections.old ++ filter (is_of_kind kind is_writable) heads.now) }
{
    for head in heads {
        if head.kind == kind && head.is_writable() == is_writable {
            sections.push(*head)?;
        }
    }
    Ok(())
}

/// From the first of some sections to the end of the last, where that has bytes.
fn extent(layout: &Layout<'_>, sections: &[SectionHead]) -> Option<Extent>
    requires { All (EndsLow layout.now.mode layout.now.text.inputs.now) sections.now }
    ensures { (xs : List InputSection) → sections.now ≡ map head_of xs → result ≡ extent_of layout.now.mode layout.now.text.inputs.now xs }
{
    let first = sections.first()?;
    let last = sections.last()?;
    let low = layout.section_place(first.index);
    let high = layout.section_place(last.index) + u64::from(last.size);
    if low >= high {
        return None;
    }
    Some(Extent {
        addr: low as u32,
        size: (high - low) as u32,
    })
}

/// The array of the sections of a kind.
fn array(alloc: Global, layout: &Layout<'_>, kind: u32) -> Result<Option<Extent>, Memory>
    requires kind { IsArrayKind kind }
    requires small { places.data_end layout.now.mode layout.now.text.inputs.now < 2 ^ 32 }
    ensures { IfOk result (λ array. array
        ≡ extent_of layout.now.mode layout.now.text.inputs.now (sections_of_kind layout.now.text.inputs.now kind)) }
{
    let heads = layout.text.heads();
    let mut sections = Seq::new(alloc);
    put_of_kind(&mut sections, heads, kind, false)?;
    put_of_kind(&mut sections, heads, kind, true)?;
    Ok(extent(layout, sections.as_slice()))
}

/// What an object that lies so wants to have called at its start and its end.
pub(crate) fn inits(alloc: Global, layout: &Layout<'_>) -> Result<Inits, Memory>
    requires { places.data_end layout.now.mode layout.now.text.inputs.now < 2 ^ 32 }
    ensures { IfOk result (λ inits. inits ≡ inits_for layout.now.mode layout.now.text.inputs.now) }
{
    Ok(Inits {
        init: None,
        fini: None,
        init_array: array(alloc, layout, SHT_INIT_ARRAY)?,
        fini_array: array(alloc, layout, SHT_FINI_ARRAY)?,
    })
}
