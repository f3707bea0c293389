//! What a session asks of every shard at once: the rows of a query, a deletion, a rollback.
#![tactic(auto)]

mod answers;
mod calls;
mod deletions;
mod law;
mod merging;
mod rollbacks;
mod scans;

pub use deletions::{WriteEnd, drop_on_shards};
pub use law::{groups_add_their_operation_once, scans_are_plain_folds};
pub use rollbacks::roll_back_shards;
pub use scans::scan_shards;
