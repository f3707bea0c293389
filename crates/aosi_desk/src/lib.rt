//! The desk of a store: the register of AOSI, which is the journal with its counters, the open snapshots and the open
//! round, and the list of cubes.
#![tactic(auto)]

mod answer;
mod counted;
mod cube;
mod desk;
mod fields;
mod hold;
mod register;
mod search;

pub use answer::{RoundAnswer, RoundEnd};
pub use cube::{CubeAnswer, CubeFound};
pub use desk::{Decls, Desk};
pub use register::{MOST_HOLDERS, MOST_SESSIONS, Register};
