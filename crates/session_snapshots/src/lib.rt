//! The calls of a session on the desk, each with what the session then knows that it holds.
#![tactic(auto)]

mod answers;
mod endings;
mod holding;
mod law;
mod looks;
mod openings;

pub use endings::{close_reader, commit, end_writer};
pub use holding::{sessions_begin_with_nothing, snapshot_holders_are_ready};
pub use law::plain_notes_are_allowed;
pub use looks::{create_cube, find_cube, leave_note, read_counters};
pub use openings::{open_reader, open_writer};
