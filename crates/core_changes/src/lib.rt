//! A statement that changes rows in a session of the core over shards: where it begins, ends and fails (by a writer of its
//! own that it opens and commits, or by that of the transaction that is open), and the laws of its calls, of what it posts
//! and of how it is performed, whichever way it ended.
#![tactic(auto)]

mod answers;
mod beginnings;
mod calls;
mod ends;
mod failures;
mod operations;
mod performing;

pub use answers::{
    changes_are_steps_by_writers, done_changes_are_answered, done_changes_are_operations,
    failed_changes_are_answered,
};
pub use beginnings::begin_change;
pub use calls::{calls_of_changes_go_on, groups_are_calls_of_changes};
pub use ends::finish_change;
pub use failures::fail_change;
pub use operations::operations_of_changes_add_up;
pub use performing::{changes_are_performed, changes_do_what_they_ask, changes_need_a_mode};
