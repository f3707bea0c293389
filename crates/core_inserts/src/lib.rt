//! INSERT of a session of the core: it looks for its cube, gives its texts their numbers, puts its rows on the shards
//! of their bricks by its writer, and ends the change.
#![tactic(auto)]

mod bound;
mod ending;
mod inserts;
mod putting;

pub use inserts::insert;
