//! Why a declaration or a cubes text is refused.

use cube_values::Text;
use thiserror::Error;

/// Why a cube cannot be stored, the first that applies in this order.
#[derive(Clone, Debug, PartialEq, Eq, Drop, Error)]
pub enum SchemaFault {
    /// A column's name stands before already, dimensions first.
    #[error("DuplicateName {name}")]
    DuplicateName { name: Text },
    /// A dimension has cardinality 0 or range 0.
    #[error("ZeroCardinality {name}")]
    ZeroCardinality { name: Text },
    /// A dimension's range is above its cardinality.
    #[error("RangeTooLarge {name}")]
    RangeTooLarge { name: Text },
    /// There are more than 2^62 bricks.
    #[error("TooManyBricks")]
    TooManyBricks,
    /// There are more than sixteen dimensions, or more than sixteen metrics.
    #[error("TooManyColumns")]
    TooManyColumns,
    /// There is no metric.
    #[error("NoMetric")]
    NoMetric,
}

/// Why a cubes text is refused, the first that applies in this order. Lines are counted from 1.
#[derive(Clone, Debug, PartialEq, Eq, Drop, Error)]
pub enum CubesFault {
    /// It is not UTF-8; `at` is the place of the first byte that is not well formed.
    #[error("NotUtf8 {at}")]
    NotUtf8 { at: u64 },
    /// A line is in no form, or declares a column before any cube.
    #[error("BadLine {line}")]
    BadLine { line: u64 },
    /// A line begins a cube of a name that a cube before it has.
    #[error("DuplicateCube {line}")]
    DuplicateCube { line: u64 },
    /// A line begins the seventeenth cube.
    #[error("TooManyCubes {line}")]
    TooManyCubes { line: u64 },
    /// The cube of this name cannot be stored.
    #[error("Schema {cube} {fault}")]
    Schema { cube: Text, fault: SchemaFault },
}
