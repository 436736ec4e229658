//! Sections one behind the other.

ghost use Rattle.std.specs.Prelude.{◌≡◌, ◌<◌, ◌≤◌, ◌^◌, All, get_or, map, max, IfOk};
ghost use Rattle.link_places.specs.parts.Lying.{AreLaid, ArePlaced, numbered_of};

use crate::heads::SectionHead;
use fd_base::{Memory, Seq};
use link_layout::{Piece, lay};
use std::alloc::Global;

/// Where sections lie.
#[derive(Drop)]
pub(crate) struct Lying {
    /// The place of each section of all inputs, by number, and the end for one that doesn't lie here.
    places: Vec<u64>,
    /// The end of the last.
    pub(crate) end: u64,
}

/// A piece and the number of what it is of.
#[derive(Clone, Copy)]
pub(crate) struct NumberedPiece {
    pub(crate) number: u32,
    pub(crate) piece: Piece,
}

fn pieces(alloc: Global, numbered: &[NumberedPiece]) -> Result<Seq<Piece>, Memory>
    ensures { IfOk result (λ pieces. pieces ≡ map (λ n. n.piece) numbered.now) }
{
    let mut pieces = Seq::new(alloc);
    for one in numbered {
        pieces.push(one.piece)?;
    }
    Ok(pieces)
}

fn numbered(alloc: Global, heads: &[SectionHead]) -> Result<Seq<NumberedPiece>, Memory>
    ensures { IfOk result (λ numbered. numbered ≡ map numbered_of heads.now) }
{
    let mut numbered = Seq::new(alloc);
    for head in heads {
        numbered.push(NumberedPiece {
            number: head.index,
            piece: head.piece(),
        })?;
    }
    Ok(numbered)
}

/// Lays pieces one behind the other, from a place on; their numbers are below `count`.
pub(crate) fn lay_numbered(
    alloc: Global,
    count: usize,
    from: u64,
    numbered: &[NumberedPiece],
) -> Result<Lying, Memory>
    requires near { from ≤ 2 ^ 61 }
    requires numbered { All (λ n. n.number < count) numbered.now }
    ensures laid { IfOk result (λ lying. ArePlaced from numbered.now lying) }
    ensures near { IfOk result (λ lying. lying.end ≤ max from (2 ^ 60)) }
{
    let pieces = pieces(alloc, numbered)?;
    let laid = lay(alloc, from, pieces.as_slice())?;
    let mut places = vec![in alloc; laid.end; count]?;
    let mut left = numbered.len();
    while left > 0 {
        left -= 1;
        places[numbered[left].number as usize] = laid.places.as_slice()[left];
    }
    Ok(Lying {
        places,
        end: laid.end,
    })
}

/// Lays sections one behind the other, from a place on; `count` sections are numbered.
pub(crate) fn lay_sections(
    alloc: Global,
    count: usize,
    from: u64,
    heads: &[SectionHead],
) -> Result<Lying, Memory>
    requires near { from ≤ 2 ^ 61 }
    requires numbered { All (λ h. h.index < count) heads.now }
    ensures laid { IfOk result (λ lying. AreLaid from heads.now lying) }
    ensures near { IfOk result (λ lying. lying.end ≤ max from (2 ^ 60)) }
{
    let numbered = numbered(alloc, heads)?;
    lay_numbered(alloc, count, from, numbered.as_slice())
}

impl Lying {
    /// The place of the section of this number, and the end where it doesn't lie here.
    pub(crate) fn place(&self, k: u32) -> u64
        ensures { result ≡ get_or self.now.places.items k self.now.end }
    {
        match self.places.get(k as usize) {
            Some(place) => *place,
            None => self.end,
        }
    }
}
