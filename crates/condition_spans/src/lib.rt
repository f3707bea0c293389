//! Spans: the coordinates of a cube for which conditions on its dimensions hold.
#![tactic(auto)]

mod codes;
mod coords;
mod grow;
mod part;
mod span;

pub use codes::{codes_in, lists_at, narrow};
pub use grow::append;
pub use part::values_of_test;
pub use span::span_for;
