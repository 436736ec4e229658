//! The text of Arm instructions read: tokens, words, operands, and the instruction of a statement.
#![tactic(auto)]

mod address;
mod arg;
mod fitting;
mod head;
mod laws;
mod list;
mod operands;
mod refusal;
mod scanner;
mod statement;
mod taking;
#[cfg(test)]
mod tests;
mod words;

pub use head::{Head, Mnemonic};
pub use laws::printed_is_read;
pub use refusal::AsmKind;
pub use scanner::{Scanner, Token, behind_blanks, is_blank, is_word, split_word};
pub use statement::{InstrStatement, instruction_of, is_apart, statement_of};
pub use taking::{gap, immediate, mark, name, next_register, number_taken, register, word};
pub use words::{is_name, mnemonic_of, register_of};
