//! The events of the core, and what each of its parts keeps over any list of events in which each call
//! fits: its bricks, its desk and its mails.
#![tactic(auto)]

mod bricks;
mod desk;
mod law;
mod mails;

pub use bricks::{bricks_show_serial_execution, copies_restore_bricks, deltas_are_differences};
pub use desk::{
    bounds_stay_safe, desk_calls_meet_their_conditions, nothing_aborted_counts,
    told_cubes_are_there,
};
pub use law::{clients_know_by_their_calls, names_only_grow};
pub use mails::{fetches_serve_posts, mail_calls_meet_their_conditions, workers_do_what_they_take};
