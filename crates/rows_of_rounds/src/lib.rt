//! The rows that a store's rounds keep of a run: of each brick those that the transactions leave which
//! are committed up to the epoch of the last round.
#![tactic(auto)]

mod law;

pub use law::{
    rounds_have_the_rows_of_an_opening, rows_of_rounds_grow_by_rounds, rows_of_rounds_stay,
};
