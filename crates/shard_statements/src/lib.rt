//! ROLLBACK, for which a session of the core asks the shards.
#![tactic(auto)]

mod rollbacks;

pub use rollbacks::{rollback, take_back};
