//! A run of the core on threads: main, the sessions, the workers of the shards and the flusher.
#![tactic(auto)]

mod flusher;
mod law;
mod main_work;
mod worker;

pub use flusher::FlusherWork;
pub use law::{callers_of_an_opened_core_may_begin, ended_boards_are_core_runs};
pub use main_work::ClosingMain;
pub use worker::ShardWorker;
