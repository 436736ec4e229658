//! Where common blocks lie.

ghost use Rattle.std.specs.Prelude.{◌≡◌, ◌<◌, ◌≤◌, ◌^◌, ◌++◌, All, max, option_to_list, IfOk, OnOk};
ghost use Rattle.std.specs.List.{filter_map};
ghost use Rattle.link_places.specs.parts.Blocks.{block_of};
ghost use Rattle.link_places.specs.parts.Lying.{ArePlaced};

use crate::lying::{Lying, NumberedPiece, lay_numbered};
use fd_base::{Memory, Seq};
use link_layout::Piece;
use link_model::{Spot, Target};
use std::alloc::Global;

/// The common block that a symbol is, by the number of its name.
fn block_of(target: &Target) -> Option<NumberedPiece>
    ensures { result ≡ block_of target.now }
{
    match target.spot {
        Spot::Common(number) => Some(NumberedPiece {
            number,
            piece: Piece {
                align: target.align,
                size: target.size,
            },
        }),
        _ => None,
    }
}

/// Puts the common block that a symbol is behind others.
fn put_block(blocks: &mut Seq<NumberedPiece>, target: &Target) -> Result<(), Memory>
    ensures { OnOk result (blocks.new ≡ blocks.old ++ option_to_list (block_of target.now)) }
{
    match block_of(target) {
        Some(block) => blocks.push(block),
        None => Ok(()),
    }
}

/// The common blocks among symbols.
fn blocks(alloc: Global, targets: &[Target]) -> Result<Seq<NumberedPiece>, Memory>
    ensures { IfOk result (λ blocks. blocks ≡ filter_map block_of targets.now) }
{
    let mut blocks = Seq::new(alloc);
    for target in targets {
        put_block(&mut blocks, target)?;
    }
    Ok(blocks)
}

/// A number above those of all pieces.
fn count_of(numbered: &[NumberedPiece]) -> usize
    ensures { All (λ n. n.number < result) numbered.now }
{
    let mut count = 0;
    for one in numbered {
        count = count.max(one.number as usize + 1);
    }
    count
}

/// Lays the common blocks one behind the other, from a place on.
pub(crate) fn lay_blocks(alloc: Global, from: u64, targets: &[Target]) -> Result<Lying, Memory>
    requires { from ≤ 2 ^ 61 }
    ensures laid { IfOk result (λ lying. ArePlaced from (filter_map block_of targets.now) lying) }
    ensures near { IfOk result (λ lying. lying.end ≤ max from (2 ^ 60)) }
{
    let blocks = blocks(alloc, targets)?;
    lay_numbered(alloc, count_of(blocks.as_slice()), from, blocks.as_slice())
}
