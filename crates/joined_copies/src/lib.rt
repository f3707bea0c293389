//! What all shards copied for a round, joined cube by cube.
#![tactic(auto)]

mod cube;
mod cubes;

pub use cubes::join_copies;
