//! What a session of the core has posted stands for what the statements behind it have done, statement
//! by statement, and so for what it commits.
#![tactic(auto)]

mod changes;
mod ends;
mod law;

pub use changes::{calls_add_operations, changes_are_posted, statements_do_nothing_to_rows};
pub use ends::{posts_stand_for_commits, posts_stand_in_transactions};
pub use law::{posts_stand_at_the_beginning, posts_stay};
