//! The cells of a board without a board: calls on them are made one after the other.
#![tactic(auto)]

mod sequence;

pub use sequence::SequentialCells;
