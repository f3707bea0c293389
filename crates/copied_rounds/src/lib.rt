//! A round of what the flusher copied is one of the run, and may follow what a store keeps of it.
#![tactic(auto)]

mod law;

pub use law::{
    copied_rounds_are_of_their_runs, copied_rounds_may_follow_what_is_kept,
    what_is_kept_grows_by_copied_rounds,
};
