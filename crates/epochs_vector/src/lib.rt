//! The vector of epochs of a brick: who appended which of its rows, and where deletions stand.
#![tactic(auto)]

mod entry_list;
mod epochs;
mod law;
mod limit;
mod shown;
mod without;

pub use epochs::Epochs;
pub use law::removal_changes_no_other_row;
pub use limit::Limit;
