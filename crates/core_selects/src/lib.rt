//! SELECT of a session of the core, and what it is answered: the lines of the plain fold over the rows that its snapshot sees of
//! the record, in each run of scripts.
#![tactic(auto)]

mod answering;
mod binding;
mod history;
mod law;
mod lines;
mod reading;
mod selecting;

pub use law::{calls_leave_the_watch, reading_calls_go_on, selects_are_performed};
pub use selecting::select;
