//! LOAD of a session of the core: it looks for its cube, opens its file, gives the texts of its records their numbers,
//! puts their rows on the shards of their bricks by its writer, batch by batch, and ends the change.
#![tactic(auto)]

mod ending;
mod loads;
mod putting;
mod reading;
mod refusing;

pub use loads::load;
