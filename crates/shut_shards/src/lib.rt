//! What the shards of a core hold once they are shut.
#![tactic(auto)]

mod law;

pub use law::{
    purged_shards_have_no_marks, purged_shards_have_no_old_marks, shut_shards_hold_the_record,
    shut_shards_hold_their_views,
};
