//! What the main thread asks of a core, before the sessions and after them: the counters, a purge of every
//! shard, and that the mails are closed.
#![tactic(auto)]

mod closings;
mod counters;
mod law;
mod purges;

pub use closings::{close_flusher_mail, close_shard_mails};
pub use counters::read_run_counters;
pub use law::main_begins_ready;
pub use purges::{purge_all, purge_up_to_lse};
