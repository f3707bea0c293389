//! Sessions that have played their scripts to the end hold nothing.
#![tactic(auto)]

mod law;

pub use law::merged_scripts_leave_nothing_held;
