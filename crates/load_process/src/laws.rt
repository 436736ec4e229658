//! What holds of loads themselves. A call of one does nothing.

ghost use Rattle.load_process.specs.parts.JoinLaws.{LoadsKeepValid, LoadsJoin, LoadsLeaveScopes, NumbersAreFree, EmptyScope};

/// The process after a load is valid.
pub fn loads_keep_valid()
    ensures { LoadsKeepValid }
{}

/// After a load each new module stands at its number, and all of them have one scope; the others stay as they were.
pub fn loads_join()
    ensures { LoadsJoin }
{}

/// A load leaves the scope of each live module as it was, and the objects of the modules in it.
pub fn loads_leave_scopes()
    ensures { LoadsLeaveScopes }
{}

/// The numbers of the modules that a load adds are free, and no two have one number.
pub fn numbers_are_free()
    ensures { NumbersAreFree }
{}

/// The scope of the first modules of a process is the closure of the program.
pub fn empty_scope()
    ensures { EmptyScope }
{}
