//! What loading means: the memory plan, the process without addresses, what symbols and sites mean, the placed image,
//! and which loads are accepted. The code that loads stands in the crates above.
#![tactic(auto)]

mod error;
mod laws;
mod layout;
mod maps;
mod meaning;
mod module;
mod plan;
mod process;
mod unbound;
mod words;

pub use error::{LoadErr, LoadRefusal};
pub use laws::numbers;
pub use layout::{
    END_WORDS, LOAD_MAP_SIZE, LOAD_MAPS, LOAD_MAPS_SIZE, PROCESS_END, RESOLVER, RESOLVER_WORDS,
    STUBS_END, THREAD_END, load_map_at,
};
pub use maps::{MapEntries, Maps};
pub use meaning::{Definition, SiteValue, Value};
pub use module::{Flags, Group, Groups, Joining, Live, Modules, SlotOf, SymbolicProcess};
pub use plan::{DESCRIPTOR_SIZE, MemPlan, PlaceLine, Places, listed_for};
pub use symbol_scope::MAX_MODULES;
pub use unbound::{is_set, unbound_at_first};
pub use words::{LinkWord, SlotPair};
