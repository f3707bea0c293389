//! A run of scripts on threads over a core of what is kept: from the scripts and the shelves of its sessions to what
//! it left, and how that stands on record.
#![tactic(auto)]

mod law;
mod rooms;
mod running;
mod shelves;

pub use law::what_is_left_is_on_record;
pub use running::{PlayedRun, UnplayedRun, play_run};
