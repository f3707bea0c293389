//! Bricks: in which brick coordinates lie and where in it, and how much of a brick a span has.
#![tactic(auto)]

mod address;
mod cover;
mod law;
mod share;
mod sizes;

pub use address::{brick_of, coord_of, offset_of};
pub use cover::{Cover, covers};
pub use law::coords_and_addresses_agree;
pub use sizes::bricks_of;
