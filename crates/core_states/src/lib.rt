//! What a session of the core has behind it, the runs that may go on from there, and the statements that it executes by calls
//! on the desk alone.
#![tactic(auto)]

mod besides;
mod ends;
mod law;
mod own_calls;
mod pasts;
mod refusals;
mod refusing;
mod session;
mod showing;
mod transactions;

pub use besides::Besides;
pub use ends::the_end_completes_a_run;
pub use law::{plain_calls_change_no_rows, sessions_stand_at_their_beginning};
pub use own_calls::{calls_leave_no_entries, desk_calls_leave_entries, writers_know_their_epochs};
pub use pasts::{a_longer_past_goes_on, one_more_is_executed, what_is_behind_stays};
pub use refusals::{refuse_by_mode, refuse_memory, refuse_syntax};
pub use refusing::{refuse, refuse_plainly};
pub use session::CoreSession;
pub use showing::show_epochs;
pub use transactions::{begin, clear};
