//! The core as a program on a board: its cells, what each caller knows by its own calls, and which calls
//! then fit.
#![tactic(auto)]

mod answer_kinds;
mod answers;
mod calls;
mod cells;
mod clients;
mod flusher;
mod mails;
mod size;
mod workers;

pub use answers::answers_fit_their_calls;
pub use calls::{call_desk_cell, call_names_cell};
pub use cells::CoreCells;
pub use clients::{
    clients_fit_by_what_they_know, clients_know_their_runs, clients_learn_by_each_call,
    own_calls_go_on,
};
pub use flusher::{
    the_flusher_fits_by_what_it_knows, the_flusher_goes_on_by_its_calls, the_flusher_is_a_client,
    the_flusher_knows_its_runs, the_flusher_learns_by_each_call,
};
pub use mails::{close_mail, fetch_answer, post_job};
pub use size::CoreSize;
pub use workers::workers_serve_their_shards;
