//! Why a text is refused.

/// What is wrong with a line of a text.
#[derive(Clone, Copy, Debug, PartialEq, Eq)]
pub enum AsmKind {
    /// The statement is unknown.
    Mnemonic,
    /// An operand has a wrong form, or no instruction has such operands.
    Operand,
    /// A number doesn't fit in its place.
    Range,
    /// The directive is unknown, or stands in the wrong section.
    Directive,
    /// The label stands already at another place.
    LabelTwice,
    /// The label that is asked for isn't there.
    NoLabel,
    /// The line is too long.
    LineLong,
}
