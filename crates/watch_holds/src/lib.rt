//! What a session's holders hold between two of its calls, and which calls then fit.
#![tactic(auto)]

mod law;
mod staying_law;

pub use law::{holders_ask_their_shards, holders_close_readers, holders_open_readers};
pub use staying_law::{holders_leave_the_own_snapshot, own_calls_leave_the_holders};
