//! Modules, groups and processes.

use elf_model::Object;
use fd_base::{Name, Numbers, Seq};

/// A live module: a loaded object.
#[derive(Drop)]
pub struct Live {
    /// The name under which its file was fetched. No two live modules have one name.
    pub name: Name,
    /// What its file says. Addresses in it are link addresses.
    pub object: Object,
    /// The number of its group: the module number of the group's first module.
    pub group: u32,
    /// How often it was opened and not closed.
    pub opens: u32,
    /// Which of its slots are unbound, by their numbers: those lead to calls of the resolver, which bind them.
    pub unbound: Flags,
}

/// A flag for each slot of a module, from slot 0 on.
pub type Flags = Seq<bool>;

/// A slot of a module, both by number.
#[derive(Clone, Copy, PartialEq, Eq)]
pub struct SlotOf {
    pub module: u32,
    pub slot: u32,
}

/// Modules that were loaded together.
#[derive(Drop)]
pub struct Group {
    /// The numbers of the modules in which their symbols are looked up, in this order. It never changes.
    pub scope: Numbers,
}

/// Live modules by number, from 0 to 63.
pub type Modules = Seq<Option<Live>>;
/// Live groups by number. The number of a group is that of its first module.
pub type Groups = Seq<Option<Group>>;

/// A process without addresses.
#[derive(Drop)]
pub struct SymbolicProcess {
    /// A place for each module number. None has no live module.
    pub modules: Modules,
    /// A place for each group number. None has no live group.
    pub groups: Groups,
    /// The numbers of the modules whose symbols every later group finds, in this order.
    pub global: Numbers,
}

/// A module that a load adds, and the number that it gets.
#[derive(Drop)]
pub struct Joining {
    /// Its module number, from 0 to 63.
    pub number: u32,
    /// The name under which its file was fetched.
    pub name: Name,
    /// What its file says. Addresses in it are link addresses.
    pub object: Object,
}
