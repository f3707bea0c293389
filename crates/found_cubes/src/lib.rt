//! The cube that a statement's session found is on record of each run that goes on: it is the one of its name, so
//! declared, with the dictionaries at its place.
#![tactic(auto)]

mod law;

pub use law::found_cubes_are_on_record;
