//! Why a row of an INSERT or a record of a file is not stored.

use cube_values::Text;
use thiserror::Error;

/// The longest text of a dimension, in bytes.
pub const TEXT_BYTES: usize = 255;

/// Why a value does not fit its column, the first that applies in this order.
#[derive(Clone, Copy, Debug, PartialEq, Eq, Error)]
pub enum Reason {
    /// It is no number of 64 bits with a sign, for a dimension of numbers or a metric.
    #[error("NotNumber")]
    NotNumber,
    /// It is a number outside the coordinates of its dimension.
    #[error("OutOfRange")]
    OutOfRange,
    /// It is a number, or bytes that are not UTF-8, for a dimension of texts.
    #[error("NotText")]
    NotText,
    /// It is a text of more than 255 bytes.
    #[error("TooLong")]
    TooLong,
    /// It is a text that the dictionary lacks and has no place for.
    #[error("DictionaryFull")]
    DictionaryFull,
}

/// Why a row is not stored.
#[derive(Clone, Debug, PartialEq, Eq, Drop, Error)]
pub enum BadRow {
    /// It has so many values, and not one for each column.
    #[error("values {values} WrongCount")]
    WrongCount { values: u64 },
    /// The value of the column of this name is the first that does not fit.
    #[error("column {name} {reason}")]
    Column { name: Text, reason: Reason },
}
