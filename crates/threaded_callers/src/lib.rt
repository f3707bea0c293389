//! The work of many callers of a board, each on a thread of its own.
#![tactic(auto)]

mod helping;
mod later;
mod main_task;
mod playing;
mod running;
mod serving;
mod sharing;
mod starter;
mod station;
mod task;
mod work;
mod working;

pub use playing::Played;
pub use running::{Ended, give_callers, run_on_threads};
pub use starter::ThreadStarter;
pub use task::Task;
pub use work::{CallerWork, MainWork, StepWork};
