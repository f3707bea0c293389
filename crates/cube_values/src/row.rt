//! Rows, as a statement gives them, as they are stored, and as coordinates.

ghost use Rattle.std.specs.Prelude.{◌≡◌, IfOk};

use crate::sequence::Sequence;
use crate::text::Text;
use crate::value::Values;
use std::alloc::AllocError;

/// Metrics of a row, in the order of the cube.
pub type Numbers = Sequence<i64>;

/// Coordinates, numbers of dimensions or offsets, one per dimension or as the field says.
pub type Coords = Sequence<u32>;

/// A row of a cube: a value for each dimension and a number for each metric.
#[derive(Clone, Debug, Drop)]
pub struct Row {
    pub dims: Values,
    pub metrics: Numbers,
}

/// A row with the name of its cube.
#[derive(Clone, Debug, Drop)]
pub struct StoredRow {
    pub cube: Text,
    pub row: Row,
}

/// A row by coordinates: one for each dimension, and a number for each metric.
#[derive(Clone, Debug, PartialEq, Eq, Drop)]
pub struct CodedRow {
    pub coords: Coords,
    pub metrics: Numbers,
}

impl Row {
    /// The same row.
    pub fn copy(&self) -> Result<Row, AllocError>
        ensures { IfOk result (λ r. r ≡ self.now) }
    {
        self.clone()
    }
}

/// Rows of one cube.
pub type Rows = Sequence<Row>;

/// Rows with their cubes' names.
pub type StoredRows = Sequence<StoredRow>;
