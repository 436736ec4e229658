//! What holds of the calls of a consistent loader's modules. A call of one does nothing.

ghost use Rattle.call_laws.specs.parts.StandingCalls.{CallsAreHeld, GotsNameModules};

/// Where an entry of the PLT stands in the code of a live module, and no site meets it, its words are fetched, and the
/// slot to which they lead holds the function's entry point and the GOT of its module.
pub fn calls_are_held()
    ensures { CallsAreHeld }
{}

/// The placed address of its GOT, which r9 holds at a call, names a live module.
pub fn gots_name_modules()
    ensures { GotsNameModules }
{}
