//! What holds of loads and of a loader's program: that loads are determined, and that each load and each step keeps what
//! holds of a loader. Laws over the definitions of `load_state`; nothing here runs.
#![tactic(auto)]

mod consistent;
mod descriptors;
mod determined;
mod images;
mod loads;
mod steps;

pub use consistent::{loads_keep_consistent, new_is_consistent, programs_are_bound};
pub use descriptors::{addresses_stay, adoptions_are_free, descriptors_stay};
pub use determined::{loads_are_determined, plans_are_determined};
pub use images::images_stand;
pub use loads::{modules_stay, ranges_stay, tables_stay};
pub use steps::steps_keep_consistent;
