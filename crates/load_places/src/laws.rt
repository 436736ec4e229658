//! What holds of the plans of a consistent loader. A call of one does nothing.

ghost use Rattle.load_places.specs.parts.Laws.{GivenSlotsHaveRoom, MapsEnd, PlansArePlaceable, StepsCommit};

/// The new modules of a plan can be placed: their segments lie in free memory, and meet nothing.
pub fn plans_are_placeable()
    ensures { PlansArePlaceable }
{}

/// The slots that functions get in a plan lie in memory, and apart.
pub fn given_slots_have_room()
    ensures { GivenSlotsHaveRoom }
{}

/// Each placed segment ends below 2^32, before a load and after it.
pub fn maps_end()
    ensures { MapsEnd }
{}

/// Where the new modules and the descriptors of a plan are put into memory, and all else is entered, the plan is
/// committed.
pub fn steps_commit()
    ensures { StepsCommit }
{}
