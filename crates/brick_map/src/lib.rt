//! The bricks of one cube on a shard, and the deletions that wait for bricks which are not there yet.
#![tactic(auto)]

mod append;
mod birth;
mod copies;
mod cube;
mod deletion;
mod list;
mod marks;
mod order;
mod passes;
mod recent;
mod runs;

pub use cube::CubeBricks;
pub use deletion::Deletion;
