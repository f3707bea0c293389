//! The plain program over a journal: its counters, and whether a run can leave it.
#![tactic(auto)]

mod cubes;
mod entries;
mod legal;
mod since;
mod state;

pub use cubes::is_legal_by_cubes;
pub use legal::{is_legal, is_legal_by_counters};
pub use state::{State, state_of};
