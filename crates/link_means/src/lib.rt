//! What linking means, whole: the linked object of the definitions, and what each relocation of the inputs comes to mean
//! when that is loaded. Definitions and laws; nothing here runs.
#![tactic(auto)]

mod laws;

pub use laws::{
    distances_mean, idle_branches_mean, linked_is_output, linked_means, settled_addresses_mean,
    settled_branches_mean, words_stay,
};
