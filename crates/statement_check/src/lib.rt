//! The tests of a statement on its cube: the columns that it uses, the items of a query, the ranges that a
//! deletion cuts, and the rows that an INSERT brings.
#![tactic(auto)]

mod check;
mod columns;
mod items;
mod names;
mod parts;
mod ranges;
mod rows;

pub use check::check_statement;
pub use columns::cond_name;
pub use cube_language::Misfit;
pub use items::same_item;
pub use names::same_name;
pub use parts::{conds_of, group_of, inserted_rows, items_of};
