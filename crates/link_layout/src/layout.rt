//! Places one behind the other.

ghost use Rattle.std.specs.Prelude.{◌≡◌, ◌^◌, ◌≤◌, ◌+◌, max, IfOk};
ghost use Rattle.link_layout.specs.Layout as spec;

use fd_base::{Memory, Seq};
use std::alloc::{AllocError, Global};

/// What is to be placed.
#[derive(Clone, Copy, Debug, PartialEq, Eq)]
pub struct Piece {
    /// Its alignment in bytes; 0 counts as 1.
    pub align: u32,
    /// Its size in bytes.
    pub size: u32,
}

/// Where pieces lie. Places are whole numbers, and may pass the words of 32 bits.
#[derive(Drop)]
pub struct Laid {
    /// The place of each piece, in their order.
    pub places: Seq<u64>,
    /// The end of the last.
    pub end: u64,
}

/// No layout goes further: it would have more pieces than any memory holds.
const LIMIT: u64 = 1 << 60;

/// The first multiple of an alignment from a place on.
fn aligned(align: u32, at: u64) -> u64
    requires { at ≤ 2 ^ 61 }
    ensures value { result ≡ spec.aligned align at }
    ensures near { result ≤ at + 2 ^ 32 }
{
    let unit = u64::from(align.max(1));
    (at + (unit - 1)) / unit * unit
}

/// The places of pieces, the first of which begins at a place or behind it. `Memory` also where a layout
/// would pass 2^60.
pub fn lay(alloc: Global, from: u64, pieces: &[Piece]) -> Result<Laid, Memory>
    requires { from ≤ 2 ^ 61 }
    ensures places { IfOk result (λ laid. laid.places ≡ spec.places from pieces.now) }
    ensures end { IfOk result (λ laid. laid.end ≡ spec.end_of from pieces.now) }
    ensures near { IfOk result (λ laid. laid.end ≤ max from (2 ^ 60)) }
{
    let mut places = Seq::new(alloc);
    let mut end = from;
    for piece in pieces {
        let place = aligned(piece.align, end);
        places.push(place)?;
        end = place + u64::from(piece.size);
        if end > LIMIT {
            return Err(AllocError);
        }
    }
    Ok(Laid { places, end })
}
