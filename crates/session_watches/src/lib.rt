//! The calls of a session for its holders: readers under their numbers, scans by the first of them, and
//! what came and went between two.
#![tactic(auto)]

mod answers;
mod calls;
mod changes;
mod compares;
mod holders;
mod law;
mod merging;
mod scans;

pub use compares::compare_shards;
pub use holders::{close_holder, open_holder};
pub use law::{holders_begin_with_no_reader, own_calls_keep_the_holders};
pub use scans::scan_shards_at_holder;
