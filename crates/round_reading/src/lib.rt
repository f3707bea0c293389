//! A round of a store's file from its bytes.
#![tactic(auto)]

mod cubes;
mod entries;
mod front;
mod law;
mod made;
mod names;
mod reading;
mod rows;

pub use cubes::{have_dims, no_names_of};
pub use law::rounds_have_one_spelling;
pub use reading::read_round;
pub use round_fields::FormatFault;
