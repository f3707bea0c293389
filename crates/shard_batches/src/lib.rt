//! A batch of rows, split into one batch for each shard.
#![tactic(auto)]

mod split;

pub use split::split_by_shard;
