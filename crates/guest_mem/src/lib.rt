//! A guest's memory: bytes, what each byte is mapped as, and which bytes are watched.
#![tactic(auto)]

mod bytes;
mod guest;
mod kind;
mod laws;
mod search;
mod tags;

pub use guest::Guest;
pub use kind::{Access, MemKind};
pub use laws::{
    kept_is_read, numbers_fit, reads_agree, writes_agree, writes_keep, written_is_read,
};
