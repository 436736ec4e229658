//! What holds of turns and of calls. A call of one does nothing.

ghost use Rattle.call_laws.specs.parts.TurnLaws.{CallsArrive, CallsGoOn, CoursesAreTurns, TurnsKeep};

/// A turn keeps what is loaded, each byte that no store may change, and all other threads.
pub fn turns_keep()
    ensures { TurnsKeep }
{}

/// A call through a bound slot arrives after four steps of its thread, whatever turns others have, unless the run is
/// over before: the pc is the function and r9 its GOT, r12 is the slot's address, and all else is as it was.
pub fn calls_arrive()
    ensures { CallsArrive }
{}

/// Such a call never stops by itself.
pub fn calls_go_on()
    ensures { CallsGoOn }
{}

/// A run takes one turn after another, and reports their events.
pub fn courses_are_turns()
    ensures { CoursesAreTurns }
{}
