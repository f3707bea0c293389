//! Shards as cells of the core on a board: each call on one is an event of the core.
#![tactic(auto)]

mod cell;

pub use cell::{CoreShard, ShardCells};
