//! What holds of a consistent loader. A call of one does nothing.

ghost use Rattle.placed_code.specs.parts.PlacedLaws.{ConsistentArePlaced};

/// The modules of a consistent loader are placed.
pub fn consistent_are_placed()
    ensures { ConsistentArePlaced }
{}
