//! What the core does is what its transactions do one after the other: queries, copies of a round,
//! deltas and the journal.
#![tactic(auto)]

mod copies;
mod deltas;
mod journal;
mod serial;
mod snapshots;
mod transactions;

pub use copies::rounds_keep_committed_transactions;
pub use deltas::deltas_are_between_readers;
pub use journal::{journals_are_legal, notes_and_ends_meet_their_conditions};
pub use serial::{
    answers_are_plain_folds, queries_run_serially, snapshots_see_serial_runs,
    transactions_are_what_their_sessions_posted,
};
pub use snapshots::{
    bricks_keep_what_they_were_told, purges_stay_safe, queries_are_serial,
    queries_see_one_snapshot, snapshots_are_isolated,
};
pub use transactions::{
    aborted_transactions_leave_nothing, committed_transactions_are_done, queries_run_transactions,
    transactions_are_own_calls,
};
