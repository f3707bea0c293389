//! What a store kept, as data for the core.
#![tactic(auto)]

mod dicts;
mod law;

pub use dicts::kept_dictionaries;
pub use law::{kept_data_are_sound, kept_names_are_found, kept_rounds_lie_in_their_cubes};
