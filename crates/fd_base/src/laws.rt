//! A law on the numbers of the definitions. A call of it does nothing.

ghost use Rattle.fd_base.specs.Numbers.{HasNumbers};

/// A file has at most 4,194,304 bytes, and a name at most 255.
pub fn numbers()
    ensures { HasNumbers }
{}
