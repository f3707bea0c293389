//! Two clients of a board, for its tests: counters, and doors that one caller alone may close, once.
#![tactic(auto)]

mod closing;
mod counter;
mod doors;
#[cfg(test)]
mod tests;
mod working;

pub use closing::{ClosedDoors, closed_doors};
pub use counter::{CounterCall, CounterCells, adds_up};
pub use doors::{Door, Doors, Push};
pub use working::{count, count_in_four, count_in_three, count_in_two, counted, counters};
