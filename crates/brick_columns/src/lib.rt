//! The columns of a brick, seen as rows: offsets packed in words, and one list for each metric.
#![tactic(auto)]

mod columns;
mod lists;

pub use columns::{COUNTED_CELLS, Columns};
