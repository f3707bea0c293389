//! How a run on threads ends: with a purge of all shards up to the LSE that it leaves.
#![tactic(auto)]

mod law;
mod on_threads;

pub use law::{
    runs_end_purged_up_to_lse, runs_end_with_all_saved, shards_end_with_the_record,
    shards_end_without_marks,
};
pub use on_threads::{runs_on_threads_end_in_order, runs_on_threads_end_with_all_safe};
