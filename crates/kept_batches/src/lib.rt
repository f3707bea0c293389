//! The rows that a store kept, as one batch for each cube and shard.
#![tactic(auto)]

mod batch;
mod brick_set;
mod law;
mod limits;
mod parts;

pub use batch::kept_batch;
pub use law::stored_rounds_fit_each_cube;
