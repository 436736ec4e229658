//! The A32 integer subset: its instruction table, words decoded and encoded, and instructions printed.
#![tactic(auto)]

mod addressing;
mod allowed;
mod bits;
mod decoder;
mod encoder;
mod immediate;
mod instr;
mod laws;
mod names;
mod operands;
mod printer;
mod puts;

pub use allowed::is_allowed;
pub use decoder::decode;
pub use encoder::encode;
pub use immediate::gives;
pub use instr::{Arg, HalfOff, Instr, MemOff, Op};
pub use laws::{constants, one_instruction, one_word, round_trips};
pub use names::{condition_name, data_name, half_name, long_name, register_name, shift_name};
pub use printer::print;
