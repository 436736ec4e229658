//! Functions of modules.

/// A function.
#[derive(Clone, Copy, Debug, PartialEq, Eq, PartialOrd, Ord)]
pub struct Func {
    /// The number of its module.
    pub module: u32,
    /// Its link address in that module.
    pub value: u32,
}
