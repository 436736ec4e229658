//! What is linked.

use elf_model::Object;
use fd_base::{Name, Seq};

/// What a link makes.
#[derive(Clone, Copy, PartialEq, Eq)]
pub enum Mode {
    /// A program, which the loader links to its libraries.
    Program,
    /// A shared object.
    Shared,
    /// A program that stands alone.
    Static,
}

/// A library that an object is linked over.
#[derive(Drop)]
pub struct Lib {
    /// The name of its file.
    pub name: Name,
    /// What the file holds.
    pub object: Object,
}

/// Libraries in order.
pub type Libs = Seq<Lib>;
