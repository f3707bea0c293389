//! What a purge of old history leaves of the rows and entries of a brick.
#![tactic(auto)]

mod entry_list;
mod law;
mod limit;
mod purge;

pub use law::{purge_changes_nothing_seen, purge_keeps_later_epochs, purge_leaves_no_old_mark};
pub use purge::plan;
