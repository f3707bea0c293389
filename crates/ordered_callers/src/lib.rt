//! Callers of a board that run one at a time, in an order that a seed fixes, so that a test of threads is the same at
//! each run. That a caller keeps what its calls promise is proved. Of the order nothing is proved but that it is safe,
//! since no contract says what a lock holds: that a seed gives one order is tested.
#![tactic(auto)]

mod baton;
mod caller;
mod order;
#[cfg(test)]
mod tests;

pub use caller::OrderedCaller;
pub use order::{OrderPlace, order_places};
