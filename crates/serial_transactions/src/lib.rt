//! Transactions in any order: what a snapshot sees of them is what they leave, run in the order of
//! their epochs.
#![tactic(auto)]

mod law;

pub use law::visible_rows_are_left_by_epochs;
