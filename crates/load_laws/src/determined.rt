//! What a load comes to is determined. A call of one does nothing.

ghost use Rattle.load_state.specs.parts.Determined.{LoadsAreDetermined, PlansAreDetermined};

/// A load has one plan, or one refusal, and not both.
pub fn plans_are_determined()
    ensures { PlansAreDetermined }
{}

/// The load of a program leads to one loader, to the last byte of its memory, or to one refusal, and not to both.
pub fn loads_are_determined()
    ensures { LoadsAreDetermined }
{}
