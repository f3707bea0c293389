//! DELETE of a session of the core: it looks for its cube, finds the box of its rows, has every shard drop it by its
//! writer, and ends the change.
#![tactic(auto)]

mod bound;
mod deletes;
mod dropping;
mod ending;

pub use deletes::delete;
