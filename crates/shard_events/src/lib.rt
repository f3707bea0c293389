//! The calls on a shard as events of the core.
#![tactic(auto)]

mod law;
mod viewing;

pub use law::shards_are_linked;
pub use viewing::{purges_are_the_same, shards_answer_as_viewed, shards_are_viewed};
