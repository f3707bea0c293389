//! The plain program over a list of transactions: what a snapshot sees, and the answer to a query.
#![tactic(auto)]

mod fields;
mod groups;
mod keys;
mod numbers;
mod regions;
mod running;
mod tables;

pub use regions::region_has;
pub use running::visible_rows;
pub use tables::answer;
