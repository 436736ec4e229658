//! The assembler: the relocatable file of a text of Arm instructions and directives, or the first refusal by its line.
#![tactic(auto)]

mod assembling;
mod bytes;
mod content;
mod contents;
mod directive;
mod first_pass;
mod known;
mod laws;
mod layout;
mod limits;
mod line;
mod object;
mod operands;
mod placing;
mod put;
mod refusal;
mod said;
mod second_pass;
mod section;
mod settled;
mod spot;
mod symbols;
#[cfg(test)]
mod tests;

pub use a32_text::AsmKind;
pub use assembling::assemble;
pub use laws::assembled_is_writable;
pub use refusal::{AsmErr, AsmRefusal};
