//! What a run of scripts reads before its sessions begin: its cubes file and then each script, up to the first that is
//! bad.
#![tactic(auto)]

mod given;
mod inputs;
mod parsing;
mod scripts;

pub use given::scripts_that_were_read_may_be_given;
pub use inputs::{RunInput, read_run_files};
