//! A board: cells that threads work on in the order of their tickets, with one history of all calls.
#![tactic(auto)]

mod bell;
mod board;
mod cells;
mod history;
mod lane;
mod numbers;
mod pass;
mod plays;
mod rule;
mod view;

pub use board::{Board, NoMemory};
pub use cells::Cells;
pub use history::{Event, Hand};
pub use pass::Pass;
pub use view::{PassView, Stage};
