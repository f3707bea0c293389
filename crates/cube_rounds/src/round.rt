//! A round: what a store gains at once.

use crate::brick::RoundBrickList;
use cube_language::Decl;
use cube_values::{Sequence, TextLists};

/// For each cube and each of its dimensions how many names there are; 0 for a dimension of numbers.
pub type NameCounts = Sequence<Sequence<u64>>;

/// For each cube, in order, what a round has of its bricks.
pub type RoundBricks = Sequence<RoundBrickList>;

/// What a round has of one cube.
#[derive(Debug, Drop)]
pub struct RoundCube {
    /// For each dimension the names that come with this round; none for a dimension of numbers.
    pub names: TextLists,
    /// The bricks with entries of this round, by rising number.
    pub bricks: RoundBrickList,
}

/// What a round has of each cube, the cubes that come with it included.
pub type RoundCubes = Sequence<RoundCube>;

/// The entries of the epochs above `from` up to `epoch`, with their rows, and the names and cubes that
/// are new with them.
#[derive(Debug, Drop)]
pub struct Round {
    pub from: u64,
    pub epoch: u64,
    /// The new cubes, in order.
    pub made: Sequence<Decl>,
    pub cubes: RoundCubes,
}
