//! What holds of a new loader, and of a loader after a load. A call of one does nothing.

ghost use Rattle.load_laws.specs.parts.ConsistencyLaws.{LoadsKeepConsistent, NewIsConsistent, ProgramsAreBound};

/// A loader that has loaded nothing is consistent.
pub fn new_is_consistent()
    ensures { NewIsConsistent }
{}

/// A loader that is consistent stays so when a plan of its own is committed.
pub fn loads_keep_consistent()
    ensures { LoadsKeepConsistent }
{}

/// A program that is loaded has every slot bound.
pub fn programs_are_bound()
    ensures { ProgramsAreBound }
{}
