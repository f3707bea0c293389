//! The first lines of a table: those that pass tests, in the order of keys, up to a limit.
#![tactic(auto)]

mod bounds;
mod compared;
mod first;
mod listed;

pub use first::first_rows;
