//! Laws of the definitions.

ghost use Rattle.a32_isa.specs.declared.instr.Instr.{Instr};
ghost use Rattle.a32_isa.specs.Table.{IsInstr};
ghost use Rattle.a32_text.specs.Printed.{IsReadBack};

/// The text that is printed of an instruction is a statement of that instruction.
pub fn printed_is_read()
    ensures { (i : Instr) → IsInstr i → IsReadBack i }
{}
