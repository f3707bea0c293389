//! What the statements of a session are answered: what its mode refuses, when a round follows a commit, and what the
//! entries of a statement tell: its reply, and what it has done to rows.
#![tactic(auto)]

mod change_law;
mod law;
mod mode;
mod operation_law;
mod read_law;

pub use change_law::{
    changes_without_memory_are_answered, deletes_are_answered, files_refuse_loads,
    inserts_are_answered, loads_are_answered,
};
pub use law::{
    cubes_are_answered, refusals_are_answered, requests_are_answered, transactions_are_answered,
};
pub use mode::{SessionMode, refused_by_mode, round_follows};
pub use operation_law::{changes_are_told, others_do_nothing_to_rows};
pub use read_law::{misfits_are_answered, selects_are_answered};
