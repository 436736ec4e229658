//! What holds of the calls that begin in a run. A call of one does nothing.

ghost use Rattle.call_laws.specs.BegunCalls.{BegunCallsHold};
ghost use Rattle.call_laws.specs.parts.SlotLeads.{SlotsLeadToPlacedCode};

/// Where a call begins at a clear entry, its words and its slot stand in memory, and no store changes them.
pub fn begun_calls_hold()
    ensures { BegunCallsHold }
{}

/// The code to which a slot leads is its function's, and there is none where it has no function.
pub fn slots_lead_to_placed_code()
    ensures { SlotsLeadToPlacedCode }
{}
