//! What holds of opens and closes. A call of one does nothing.

ghost use Rattle.library_model.specs.parts.Laws.{ClosesAreDetermined, LeftMayGo, OpensAreDetermined, RecountsKeepConsistent, StepsKeepHeld, StepsKeepValid};

/// An open that is accepted leads to one process and one handle.
pub fn opens_are_determined()
    ensures { OpensAreDetermined }
{}

/// A close leads to one set of modules that go, and to one process.
pub fn closes_are_determined()
    ensures { ClosesAreDetermined }
{}

/// The modules that nothing holds go in whole groups, and no module that stays has need of one.
pub fn left_may_go()
    ensures { LeftMayGo }
{}

/// A process is valid after an open and after a close.
pub fn steps_keep_valid()
    ensures { StepsKeepValid }
{}

/// Every group is held after an open and after a close.
pub fn steps_keep_held()
    ensures { StepsKeepHeld }
{}

/// A loader that is consistent stays so whatever the count of opens of a module.
pub fn recounts_keep_consistent()
    ensures { RecountsKeepConsistent }
{}
