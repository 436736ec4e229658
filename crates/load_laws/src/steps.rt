//! What holds of a loader whose program runs. A call of it does nothing.

ghost use Rattle.load_laws.specs.parts.StepLaws.{StepsKeepConsistent};

/// A loader that is consistent stays so while its memory is written where nothing is watched.
pub fn steps_keep_consistent()
    ensures { StepsKeepConsistent }
{}
