//! Folds of rows into partial groups that merge.
#![tactic(auto)]

mod finish;
mod group_keys;
mod groups;
mod line;
mod partial;
mod tallies;
mod tally;

pub use partial::Partial;
