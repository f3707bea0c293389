//! A run of the core on threads, from the cells with which it opens to what is left of them.
#![tactic(auto)]

mod cores;
mod giving;
mod numbered;
mod room;
mod running;
mod taking;
mod tasks;

pub use cores::{CoreLeft, RanCore, ReadyCore};
pub use running::run_core;
pub use taking::take_apart;
