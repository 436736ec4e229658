//! Laws of the definitions: the table pairs words and instructions one to one, and what a constant is.

ghost use Rattle.std.specs.Prelude.{◌≡◌, ℕ, ◌*◌, ◌<◌, ◌^◌, ◌↔◌, Some, IfSome, IsTrue};
ghost use Rattle.std.specs.Int.{w32, rotate_left};
ghost use Rattle.a32_isa.specs.declared.instr.Instr.{Instr};
ghost use Rattle.a32_isa.specs.Table.{IsInstr, IsInstruction, word_of};
ghost use Rattle.a32_isa.specs.Decoding.{decode_of};
ghost use Rattle.a32_isa.specs.Immediate.{constant_of, gives};

/// A word has at most one instruction.
pub fn one_instruction()
    ensures { (w : ℕ) (i j : Instr) → IsInstruction w i → IsInstruction w j → i ≡ j }
{}

/// An instruction has exactly one word.
pub fn one_word()
    ensures word { (i : Instr) → IsInstr i → IsInstruction (word_of i) i }
    ensures only { (v w : ℕ) (i : Instr) → IsInstruction v i → IsInstruction w i → v ≡ w }
{}

/// What is encoded decodes to the same instruction, what is decoded encodes to the same word, and it is the
/// instruction whose row has the word.
pub fn round_trips()
    ensures instruction { (i : Instr) → IsInstr i → decode_of (word_of i) ≡ Some i }
    ensures word { (w : ℕ) → w < 2 ^ 32 → IfSome (decode_of w) (λ i. word_of i ≡ w) }
    ensures row { (w : ℕ) → w < 2 ^ 32 → IfSome (decode_of w) (IsInstruction w) }
{}

/// A rotation gives a number exactly where a byte rotated so is the number, and that byte is the number
/// rotated back. A byte rotated is a word.
pub fn constants()
    ensures gives { (n rot : ℕ) → n < 2 ^ 32 → rot < 16
        → IsTrue (gives n rot) ↔ ((imm : ℕ) × (imm < 256) × (constant_of rot imm ≡ n)) }
    ensures back { (rot imm : ℕ) → rot < 16 → imm < 256
        → rotate_left w32 (constant_of rot imm) (2 * rot) ≡ imm }
    ensures fits { (rot imm : ℕ) → rot < 16 → imm < 256 → constant_of rot imm < 2 ^ 32 }
{}
