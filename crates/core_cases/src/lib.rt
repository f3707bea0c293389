//! Runs of the core, worked out event by event.
#![tactic(auto)]

mod law;

pub use law::{a_small_run_fits, a_whole_run_fits};
