//! Statements for which a session of the core asks the flusher or the shards: FLUSH, PURGE, and COMMIT with the round
//! that follows it.
#![tactic(auto)]

mod commits;
mod notes;
mod purges;
mod requests;
mod rounds;

pub use commits::commit;
pub use requests::{flush, purge};
pub use rounds::follow_commit;
