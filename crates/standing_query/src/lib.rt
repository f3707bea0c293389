//! Standing queries: an answer that is kept and follows the rows that come and go.
#![tactic(auto)]

mod change;
mod watch;

pub use change::Change;
pub use watch::Watch;
