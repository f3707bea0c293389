//! What the flusher copies for its round: the rows of each shard, then the cubes, then the names.
#![tactic(auto)]

mod answers;
mod calls;
mod cubes;
mod names;
mod round;
mod rows;
mod span;
mod texts;

pub use round::copy_round;
pub use span::RoundSpan;
