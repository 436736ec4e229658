//! What each site of new modules means: names are resolved, and nothing is placed.
#![tactic(auto)]

mod definition;
mod funcs;
mod joining;
mod laws;
mod linker;
mod places;
mod private;
mod sites;
mod values;
mod wanted;

pub use laws::{
    look_ups_agree, own_symbols_stay_home, placed_values_have_places, sites_have_words,
    sites_name_near_modules, slots_lead_to_code,
};
pub use linker::Linker;
pub use private::{Privates, pair_of};
pub use values::Values;
