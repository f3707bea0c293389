//! What is behind a session of the core that plays its script, what it is that such a session performs a statement,
//! and what it has played of its script.
#![tactic(auto)]

mod behind;
mod claims;
mod files;
mod law;
mod named_runs;
mod playing;

pub use behind::{
    changes_offer_their_texts, entries_ask_as_calls, last_steps_are_of_their_runs,
    names_stand_at_the_beginning, names_stand_in_the_end, names_stay, steps_are_named,
};
pub use claims::{OpeningClaim, ScriptClaim};
pub use files::KnowsFiles;
pub use law::{
    plain_statements_are_performed, quiet_calls_leave_entries, runs_of_scripts_open, scripts_begin,
};
pub use named_runs::{
    committed_rows_are_named, final_dictionaries_are_of_their_dimensions, kept_rows_are_named,
    names_come_by_sessions, rows_that_stand_are_named, runs_end_with_fitting_names,
};
pub use playing::scripts_are_played;
