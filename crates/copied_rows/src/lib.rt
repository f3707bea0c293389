//! The rows that a round copies, over any list of events of the core in which each call fits.
#![tactic(auto)]

mod law;

pub use law::{copies_have_rows_of_their_bricks, shards_have_rows_of_their_bricks};
