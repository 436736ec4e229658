//! What a load is to do.

use elf_model::Func;
use fd_base::{Bytes, Numbers, Seq};
use load_map::MapEntry;
use load_model::{Flags, Joining, Maps};
use placement::{Addrs, Items};
use symbol_scope::Table;

/// The finished bytes of each segment of each new module.
pub type Parts = Seq<Seq<Bytes>>;
/// The function to which each slot of a module leads when it is bound. None for a weak symbol without a definition.
pub type Targets = Seq<Option<Func>>;
/// Functions, each with the address of its descriptor.
pub type Descriptors = Seq<(Func, u32)>;

/// What a load does. `Loader::plan_group` makes it, and `Loader::commit` does it.
#[derive(Drop)]
pub struct GroupPlan {
    /// The number of the module that is asked for.
    pub root: u32,
    /// The new modules in the order in which they were found.
    pub joining: Seq<Joining>,
    /// Whether their slots may stay unbound until they are called.
    pub lazy: bool,
    /// The flags of their slots, in the order of the modules.
    pub unbound: Seq<Flags>,
    /// The functions to which their slots lead, in the same order.
    pub targets: Seq<Targets>,
    /// Their exported names, in the same order.
    pub tables: Seq<Table>,
    /// The scope of the new group.
    pub scope: Numbers,
    /// The global list after the load.
    pub global: Numbers,
    /// The segments of the new modules, and where they go.
    pub items: Items,
    pub addrs: Addrs,
    /// The load maps after the load.
    pub maps: Maps,
    /// The new modules' own descriptors.
    pub adopted: Descriptors,
    /// The functions that get slots.
    pub given: Descriptors,
    /// The bytes of the new modules' segments.
    pub parts: Parts,
}
