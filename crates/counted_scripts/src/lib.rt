//! How the counts of a session's shelf go on by the LOADs of its script, and that its replies alone tell it.
#![tactic(auto)]

mod law;

pub use law::{only_loads_fail_by_files, replies_tell_the_counts};
