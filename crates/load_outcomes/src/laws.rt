//! Each load comes to something. A call of one does nothing.

ghost use Rattle.load_outcomes.specs.parts.Outcomes.{LoadsComeTo};

/// Over told files each load has a plan, which can be carried out, or a refusal.
pub fn loads_come_to()
    ensures { LoadsComeTo }
{}
