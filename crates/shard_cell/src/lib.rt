//! A shard: its bricks of each cube, seen by cube and number, there or not.
#![tactic(auto)]

mod full;
mod passes;
mod shard;
mod slot;

pub use full::ShardFull;
pub use shard::Shard;
pub use slot::CubeSlot;
