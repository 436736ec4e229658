//! What holds of places. A call of one does nothing.

ghost use Rattle.link_layout.specs.parts.Laws.{PiecesLieApart};

/// Pieces lie one behind the other, each at a multiple of its alignment, and share no byte.
pub fn pieces_lie_apart()
    ensures { PiecesLieApart }
{}
