//! Who makes calls on a board: a caller by its number, with the calls that it made and a history that has them.
#![tactic(auto)]

mod caller;

pub use caller::CellCaller;
