//! The last round of a run saves all.
#![tactic(auto)]

mod law;

pub use law::{last_rounds_save_all, sessions_leave_nothing_open};
