//! A law on the numbers of the definitions. A call of it does nothing.

ghost use Rattle.run_model.specs.Numbers.{HasNumbers};

/// The numbers of services and refusals, and the steps of a call, are what they are said to be.
pub fn numbers()
    ensures { HasNumbers }
{}
