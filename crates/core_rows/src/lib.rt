//! The rows of transactions, over any list of events of the core in which each call fits.
#![tactic(auto)]

mod law;

pub use law::rows_are_of_their_cube;
