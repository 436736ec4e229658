//! What holds of loads and of loaders. A call of one does nothing.

ghost use Rattle.link_loads.specs.parts.Laws.{LoadersHoldModules, PlansMakeModules, WordsStand};

/// Each live module of a consistent loader is its object, placed, each of whose sites is filled.
pub fn loaders_hold_modules()
    ensures { LoadersHoldModules }
{}

/// Each new object of an accepted load will be a module that is placed, each of whose sites can be filled, and whose own
/// descriptors count.
pub fn plans_make_modules()
    ensures { PlansMakeModules }
{}

/// A word that loading leaves in a module stands in memory, as far as the program hasn't written there.
pub fn words_stand()
    ensures { WordsStand }
{}
