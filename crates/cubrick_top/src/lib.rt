//! The run of the program: its words, its files, its store, the scripts of its sessions on threads, and the text.
#![tactic(auto)]

mod fault;
mod generating;
mod opening;
mod playing;
mod reading;
mod running;
mod surroundings;
mod writing;

pub use fault::{Fault, Finish, finish_unplayed};
pub use running::run;
pub use surroundings::{Ended, Outside};
