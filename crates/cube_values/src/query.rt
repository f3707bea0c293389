//! What a query asks of each group of rows.

ghost use Rattle.std.specs.Prelude.{◌≡◌, IfOk};

use crate::boxed::Boxed;
use crate::operation::Region;
use crate::row::Coords;
use crate::sequence::Sequence;
use crate::span::Span;
use std::alloc::AllocError;

/// An item of a query, by the numbers of dimensions and metrics, from 0.
#[derive(Clone, Copy, Debug, PartialEq, Eq)]
pub enum BoundItem {
    /// The group's value of a dimension.
    Group(u32),
    /// How many rows the group has.
    Count,
    /// The sum of a metric.
    Sum(u32),
    /// The least value of a metric.
    Min(u32),
    /// The greatest value of a metric.
    Max(u32),
    /// The average of a metric.
    Avg(u32),
}

/// Items in order.
pub type BoundItems = Sequence<BoundItem>;

/// A query by coordinates: the number of its cube, which rows it takes, the dimensions by which they
/// are grouped, and what is computed of each group.
#[derive(Clone, Debug, PartialEq, Eq, Drop)]
pub struct BoundQuery {
    pub cube: u32,
    pub span: Span,
    pub group: Coords,
    pub items: BoundItems,
}

impl BoundQuery {
    /// The same query.
    pub fn copy(&self) -> Result<BoundQuery, AllocError>
        ensures { IfOk result (λ q. q ≡ self.now) }
    {
        self.clone()
    }
}

/// A query by coordinates, on the heap.
pub type BoxedQuery = Boxed<BoundQuery>;

/// A query by values: which rows it takes, the places of the dimensions by which they are grouped, and
/// what is computed of each group.
#[derive(Clone, Debug, Drop)]
pub struct Query {
    pub region: Region,
    pub group: Coords,
    pub items: BoundItems,
}
