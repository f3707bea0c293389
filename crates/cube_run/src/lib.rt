//! A run and its journal: which journals are merges of the scripts, which transactions a run has, what
//! each statement is answered, and the text of a run.
#![tactic(auto)]

mod law;
mod worked;

pub use law::{bounds_never_fall, entries_tell_the_outcome, one_journal_one_text};
pub use worked::{faulty_run_worked, paired_run_worked, visits_report_worked, watched_run_worked};
