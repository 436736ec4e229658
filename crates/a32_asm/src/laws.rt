//! Laws of the definitions.

ghost use Rattle.a32_asm.specs.AssembledIsWritable.{AssembledIsWritable};

/// What a text assembles to can be written.
pub fn assembled_is_writable()
    ensures { AssembledIsWritable }
{}
