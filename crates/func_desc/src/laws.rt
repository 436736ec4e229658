//! What holds of pools themselves. A call of one does nothing.

ghost use Rattle.func_desc.specs.parts.Laws.{FreeSlotsAreFree};

/// The free slots are the slots that no function has, in rising order.
pub fn free_slots_are_free()
    ensures { FreeSlotsAreFree }
{}
