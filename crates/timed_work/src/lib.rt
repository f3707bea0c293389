//! Work whose time is measured, and numbers from a seed that its data is made with.
#![tactic(auto)]

mod seed;
mod work;

pub use seed::{below, seeded};
pub use work::{Measured, Work, measure, measured_since};
