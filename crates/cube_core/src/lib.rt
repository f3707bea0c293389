//! The cells of the core and the calls on them: a desk, names, shards and mails. Each call is one call
//! below.
#![tactic(auto)]

mod answered;
mod cell;
mod cell_events;
mod group_calls;
mod histories;
mod holding;
mod jobs;
mod law;
mod link;
mod linked;
mod mails;
mod outcome;
mod shard;

pub use answered::AnsweredCall;
pub use cell::{CoreAnswer, CoreCall, CoreCell, apply};
pub use cell_events::{desk_calls_are_events, mail_calls_are_events, names_calls_are_events};
pub use group_calls::{
    answers_come_in_turn, sessions_ask_for_rounds, sessions_purge_their_shards,
    sessions_roll_back_on_their_shards, sessions_scan_their_shards, sessions_write_to_their_shards,
};
pub use histories::{callers_know_their_part, histories_are_core_runs};
pub use holding::{
    sessions_end_snapshots, sessions_keep_what_they_know, sessions_look_and_note,
    sessions_open_snapshots,
};
pub use jobs::{FlushAnswer, Job, JobAnswer, Work};
pub use law::{callers_make_their_own, entries_are_events};
pub use link::CoreBoard;
pub use linked::LinkedShard;
pub use mails::mails_are_what_events_make;
pub use outcome::StandsForOutcome;
pub use shard::{ShardAnswer, ShardCall, ShardCell};
