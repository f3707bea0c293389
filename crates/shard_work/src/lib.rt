//! The worker of a shard: it takes the jobs that were posted to its mail, does them on its shard, and replies.
#![tactic(auto)]

mod answers;
mod jobs;
mod worker;

pub use worker::{serve_waiting, work};
