//! Where the sections of the data lie.

ghost use Rattle.std.specs.Prelude.{◌≡◌, ◌≤◌, ◌^◌, ◌++◌, filter, max, IfOk, OnOk};
ghost use Rattle.link_places.specs.parts.Data.{is_of, filled_heads, data_heads};
ghost use Rattle.link_places.specs.parts.Heads.{heads_of};
ghost use Rattle.link_places.specs.parts.Lying.{AreLaid, heads_end};

use crate::heads::{SectionHead, SectionHeads};
use crate::lying::{Lying, lay_sections};
use crate::text::TextPlaces;
use elf_model::constants::{SHT_FINI_ARRAY, SHT_INIT_ARRAY};
use fd_base::{Memory, Seq};
use std::alloc::Global;

/// Which sections of the data stand together.
#[derive(Clone, Copy, PartialEq, Eq)]
enum DataPart {
    /// Arrays of functions that are called at the start.
    Starts,
    /// Arrays of functions that are called at the end.
    Ends,
    /// All others that the file has bytes of.
    Others,
    /// Zeros.
    Zeros,
}

/// Where the sections of the data lie.
#[derive(Drop)]
pub(crate) struct DataPlaces {
    pub(crate) lying: Lying,
    /// Where those end that the file has bytes of.
    pub(crate) filled_end: u64,
}

fn is_of(part: DataPart, head: &SectionHead) -> bool
    ensures { result ≡ is_of part head.now }
{
    head.is_writable()
        && match part {
            DataPart::Starts => head.kind == SHT_INIT_ARRAY,
            DataPart::Ends => head.kind == SHT_FINI_ARRAY,
            DataPart::Others => !(head.is_array() || head.is_nobits()),
            DataPart::Zeros => head.is_nobits(),
        }
}

/// Puts the sections of a part behind others.
fn put_part(data: &mut SectionHeads, heads: &[SectionHead], part: DataPart) -> Result<(), Memory>
    ensures { OnOk result (data.new ≡ data.old ++ filter (is_of part) heads.now) }
{
    for head in heads {
        if is_of(part, head) {
            data.push(*head)?;
        }
    }
    Ok(())
}

/// The sections that the file has bytes of.
fn filled_sections(alloc: Global, heads: &[SectionHead]) -> Result<SectionHeads, Memory>
    ensures { IfOk result (λ filled. filled ≡ filled_heads heads.now) }
{
    let mut filled = Seq::new(alloc);
    put_part(&mut filled, heads, DataPart::Starts)?;
    put_part(&mut filled, heads, DataPart::Ends)?;
    put_part(&mut filled, heads, DataPart::Others)?;
    Ok(filled)
}

impl DataPlaces {
    /// Lays the sections of the data, from a place on.
    pub(crate) fn new(alloc: Global, text: &TextPlaces, from: u64) -> Result<DataPlaces, Memory>
        requires { from ≤ 2 ^ 61 }
        ensures laid { IfOk result (λ places. AreLaid from (data_heads (heads_of text.now.inputs.now)) places.lying) }
        ensures filled { IfOk result (λ places. places.filled_end ≡ heads_end from (filled_heads (heads_of text.now.inputs.now))) }
        ensures near { IfOk result (λ places. places.lying.end ≤ max from (2 ^ 60)) }
        ensures filled_near { IfOk result (λ places. places.filled_end ≤ max from (2 ^ 60)) }
    {
        let heads = text.heads();
        let mut sections = filled_sections(alloc, heads)?;
        let filled = lay_sections(alloc, heads.len(), from, sections.as_slice())?;
        put_part(&mut sections, heads, DataPart::Zeros)?;
        let lying = lay_sections(alloc, heads.len(), from, sections.as_slice())?;
        Ok(DataPlaces {
            lying,
            filled_end: filled.end,
        })
    }
}
