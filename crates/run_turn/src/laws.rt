//! What holds of instructions. A call of one does nothing.

ghost use Rattle.run_turn.specs.parts.StopLaws.{StopsKeep};

/// An instruction that stops, or whose service stops, leaves all as it was.
pub fn stops_keep()
    ensures { StopsKeep }
{}
