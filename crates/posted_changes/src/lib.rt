//! What a session that puts rows adds to the operations of its transaction: their batches, which have each row
//! once.
#![tactic(auto)]

mod law;

pub use law::{posted_rows_are_operations, posted_rows_stand_for_rows};
