//! A group of jobs, one for each shard or for some: all are posted before the first answer is fetched.
#![tactic(auto)]

mod groups;
mod law;
mod some_shards;

pub use groups::ask_each_shard;
pub use law::groups_have_their_answers;
pub use some_shards::{ask_some_shards, fetch_some_shards, post_some_shards};
