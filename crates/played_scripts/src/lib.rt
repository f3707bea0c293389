//! What was done of a session's script, judged by every run that may go on from there; and that a run whose
//! sessions have played their scripts has a journal that is a merge of them, and just the text of its replies.
#![tactic(auto)]

mod behind;
mod law;

pub use behind::Behind;
pub use law::{a_script_is_played_by_statements, played_scripts_make_the_text};
