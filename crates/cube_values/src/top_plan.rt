//! Which lines of a table are asked for, and in which order.

use crate::row::Numbers;
use crate::sequence::Sequence;

/// The whole numbers that a test lets pass.
#[derive(Clone, Debug, PartialEq, Eq, Drop)]
pub enum Bound {
    /// This number.
    Equal(i64),
    /// Each of these.
    In(Numbers),
    /// From the first to the second, both included; none where the first is above the second.
    Between(i64, i64),
}

/// A test on the field of a line at a place, from 0.
#[derive(Clone, Debug, PartialEq, Eq, Drop)]
pub struct BoundTest {
    pub place: u32,
    pub bound: Bound,
}

/// Tests that all have to be passed.
pub type BoundTests = Sequence<BoundTest>;

/// An order of lines by their fields at a place, from 0: the least first, or the greatest.
#[derive(Clone, Copy, Debug, PartialEq, Eq)]
pub struct BoundKey {
    pub place: u32,
    pub desc: bool,
}

/// Keys, of which each orders the lines that are alike by those before it.
pub type BoundKeys = Sequence<BoundKey>;

/// What HAVING, ORDER BY and LIMIT ask for.
#[derive(Clone, Debug, PartialEq, Eq, Drop)]
pub struct TopPlan {
    pub having: BoundTests,
    pub keys: BoundKeys,
    /// How many lines are taken at most.
    pub limit: Option<u64>,
}
