//! What a run leaves: the journal with its counters, and what a session is answered.
#![tactic(auto)]

mod counters;
mod journal_entry;
mod law;
mod note;
mod refusal;
mod reply;
mod written_entries;
mod written_refusals;
mod written_replies;

pub use counters::{Counters, OpenSnapshot};
pub use journal_entry::{AbortCause, JournalEntry, LostCause};
pub use law::{legal_journals_are_in_order, one_more_entry};
pub use note::Note;
pub use refusal::Refusal;
pub use reply::{Rejection, Rejections, Reply};
pub use written_entries::{entries_as_written, journal_as_written};
pub use written_refusals::refusals_as_written;
pub use written_replies::replies_as_written;
