//! Work on a shard of many bricks: batches appended to it, and scans of it.
#![tactic(auto)]

mod appends;
mod batches;
mod filled;
mod scans;

pub use appends::measure_shard_append;
pub use scans::{ShardBricks, ShardScan};
