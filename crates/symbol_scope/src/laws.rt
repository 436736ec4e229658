//! What holds of closures and of exported names themselves. A call of one does nothing.

ghost use Rattle.symbol_scope.specs.parts.Laws.{ClosuresOfNumbers, ClosuresOfNames, ExportsAreFirst};

/// Roots have one closure, which has all that is reached from them, and each member once.
pub fn closures_of_numbers()
    ensures { ClosuresOfNumbers }
{}

/// The same of closures of names.
pub fn closures_of_names()
    ensures { ClosuresOfNames }
{}

/// Each name of an object's exports leads to its first exported definition.
pub fn exports_are_first()
    ensures { ExportsAreFirst }
{}
