//! A round of what was copied in a run of the core may follow what a store keeps of the run.
#![tactic(auto)]

mod law;

pub use law::{
    copied_bricks_fit_their_cubes, cubes_behind_others_may_be_made, declared_cubes_can_be_made,
    names_behind_others_are_new, rounds_of_a_run_may_follow_what_is_kept,
    what_is_kept_stays_and_grows_by_rounds,
};
