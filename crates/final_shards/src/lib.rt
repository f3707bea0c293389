//! What the shards hold at the end of a run, once all have purged up to LSE.
#![tactic(auto)]

mod law;

pub use law::{
    purged_bricks_hold_what_is_seen, purged_shards_hold_committed_rows,
    purged_shards_hold_nothing_else, purged_shards_hold_the_record, purges_leave_no_marks,
};
