//! The steps of a session on a small core, for tests of it on threads: it takes its seat, and then one step after the other, by
//! what it holds. That each of its calls fits is proved; what the core then says is for the tests.
#![tactic(auto)]

mod begins;
mod boxes;
mod cubes;
mod names;
mod plays;
mod queries;
mod requests;
mod rows;
mod seat;
mod seats;
mod totals;
mod traced;
mod transactions;
mod writes;

pub use names::NameAdded;
pub use plays::{HeldSnapshot, Step, StepAnswer};
pub use seat::Seat;
pub use totals::Totals;
pub use traced::{Traced, TracedCaller};
