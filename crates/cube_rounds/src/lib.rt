//! What a store keeps, round by round, and the definitions of its bytes.
#![tactic(auto)]

mod brick;
mod law;
mod round;

pub use brick::{RoundBrick, RoundBrickList};
pub use law::files_stand_round_by_round;
pub use round::{NameCounts, Round, RoundBricks, RoundCube, RoundCubes};
