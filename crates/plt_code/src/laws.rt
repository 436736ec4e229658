//! What holds of entries and of calls of the resolver. A call of one does nothing.

ghost use Rattle.plt_code.specs.parts.Laws.{EntriesStand, SlotsEntered, OneSlot, OneListing, LazyCallsStand, WholeEntriesAreFound};

/// An entry is that of a slot, its words stand in an executable segment, and its slot and the GOT are in one
/// segment.
pub fn entries_stand()
    ensures { EntriesStand }
{}

/// The entry of a slot stands where the slot is entered.
pub fn slots_entered()
    ensures { SlotsEntered }
{}

/// At an address stands at most one slot's entry.
pub fn one_slot()
    ensures { OneSlot }
{}

/// The entries of an object have one list.
pub fn one_listing()
    ensures { OneListing }
{}

/// The words of a call of the resolver stand in an executable segment, and its slot leads there.
pub fn lazy_calls_stand()
    ensures { LazyCallsStand }
{}

/// Where the ten words of a slot's entry stand, and the slot leads to the seventh, the entry is found, and so is
/// the call of the resolver.
pub fn whole_entries_are_found()
    ensures { WholeEntriesAreFound }
{}
