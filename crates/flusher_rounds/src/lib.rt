//! What the flusher knows of its round between two of its calls, and which calls then fit.
#![tactic(auto)]

mod law;
mod reply_law;

pub use law::{
    rounds_close, rounds_copy_cubes_and_names, rounds_copy_rows, rounds_open, the_flusher_looks,
};
pub use reply_law::{flushes_are_answered_by_rounds, rounds_progress_by_calls};
