//! What symbols and the places that loading fills mean, before anything is placed.

use elf_model::Func;
use symbol_scope::Found;

/// What a symbol means in the module that refers to it.
#[derive(Clone, Copy, PartialEq, Eq)]
pub enum Definition {
    /// A symbol of a module, which may be another one.
    Symbol(Found),
    /// Nothing, as a weak symbol may: its value is 0.
    Nothing,
    /// Nothing, where something is needed.
    Unresolved,
}

/// The value of a symbol.
#[derive(Clone, Copy, PartialEq, Eq)]
pub enum Value {
    /// A link address of a module.
    Address(Func),
    /// A number that is no address.
    Number(u32),
}

/// What loading writes at a site.
#[derive(Clone, Copy, PartialEq, Eq)]
pub enum SiteValue {
    /// One word: the placed address of a link address of a module.
    Place(Func),
    /// One word: what the formula of the relocation's kind gives for the value of its symbol.
    Formula(Value),
    /// Two words: the placed address of a function and that of the GOT of its module, or two zeros.
    Pair(Option<Func>),
    /// Two words: the placed address of a link address of the module itself, where the slot's call of the resolver
    /// stands, and that of the module's GOT.
    Stub(u32),
    /// One word: the placed address of a function's descriptor, or zero.
    Descriptor(Option<Func>),
}
