//! One brick of a cube: rows that epochs append, and deletions.
#![tactic(auto)]

mod brick;
mod cell_tallies;
mod cells;
mod copies;
mod counted_chunks;
mod cuts;
mod delta;
mod dense;
mod fold_lists;
mod parts;
mod rows;
mod scan;
mod scratch;

pub use brick::Brick;
pub use scratch::Scratch;
