//! What holds of the formulas themselves. A call of one does nothing.

ghost use Rattle.arm_relocs.specs.Branch.{FieldsAreReadBack};

/// A word is what the distance that it holds makes of it.
pub fn fields_are_read_back()
    ensures { FieldsAreReadBack }
{}
