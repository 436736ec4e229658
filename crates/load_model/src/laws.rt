//! A law on the numbers of the definitions. A call of it does nothing.

ghost use Rattle.load_model.specs.Numbers.{HasNumbers};

/// The addresses, sizes and words of the memory plan, and the most modules, are what they are said to be.
pub fn numbers()
    ensures { HasNumbers }
{}
