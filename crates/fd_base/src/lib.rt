//! What every layer stands on: lists, names, little-endian words, printed numbers, stores and sinks.
#![tactic(auto)]

mod calls;
mod fields;
mod host;
mod laws;
mod lines;
mod name;
mod seq;
mod sink;
mod store;
mod text;
mod words;

pub use fields::{
    put_decimal_field, put_digits_field, put_hex_field, put_index_field, put_name_field,
    put_word_field,
};
pub use host::{DirStore, StdSink};
pub use laws::numbers;
pub use lines::{Line, Lines};
pub use name::{Name, NameErr};
pub use seq::{Bytes, Memory, Names, Numbers, Seq, Words};
pub use sink::{MemSink, Sink, SinkErr};
pub use store::{FetchErr, MAX_FILE, MemStore, PutErr, Store};
pub use text::{number, put_dec, put_hex8, put_shown};
pub use words::{half_at, half_in, put_word, word_at, word_in};
