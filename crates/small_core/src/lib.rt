//! A small core for tests of it on threads: two shards and three sessions on a board, and what its workers, its flusher and
//! main do there.
#![tactic(auto)]

mod cores;
mod serving;

pub use cores::{CoreCallers, CoreOnBoard, SESSIONS, SHARDS, core_on_board, end_core};
pub use serving::{close_mails, serve, serve_flushes};
