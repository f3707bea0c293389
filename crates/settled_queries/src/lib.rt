//! What a query has found stays what it is to find: later events of a run change nothing that its snapshot sees.
#![tactic(auto)]

mod law;
mod scan_law;

pub use law::{later_runs_pass_the_moment, writers_find_what_is_settled};
pub use scan_law::scans_stay_plain_folds;
