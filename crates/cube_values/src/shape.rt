//! The shape of a cube: how its dimensions are cut into ranges.

use crate::sequence::Sequence;

/// How many dimensions a cube has at most, and how many metrics.
pub const MOST_COLUMNS: u32 = 16;

/// How many bricks a cube has at most.
pub const MOST_BRICKS: u64 = 1 << 62;

/// How many coordinates a dimension has, and how many of them lie in one range.
#[derive(Clone, Copy, Debug, PartialEq, Eq)]
pub struct Size {
    /// The coordinates are `0 .. cardinality - 1`.
    pub cardinality: u32,
    /// The number of coordinates in a range; the last range may be shorter.
    pub range: u32,
}

/// Sizes, one per dimension.
pub type Sizes = Sequence<Size>;

/// Yes or no for each dimension.
pub type Flags = Sequence<bool>;

/// The dimensions of a cube, in order.
#[derive(Clone, Debug, PartialEq, Eq, Drop)]
pub struct Shape {
    pub sizes: Sizes,
}

/// The shape of a cube, which of its dimensions have texts, and its number of metrics. There is one
/// flag for each dimension.
#[derive(Clone, Debug, PartialEq, Eq, Drop)]
pub struct CubeShape {
    pub shape: Shape,
    pub texts: Flags,
    pub metrics: u32,
}
