//! Where the statements of a script stand in it.

use cube_values::Sequence;
use thiserror::Error;

/// The most statements of a script.
pub const MOST_STATEMENTS: usize = 65_536;

/// The most bytes of the text of a statement.
pub const MOST_STATEMENT_BYTES: usize = 65_536;

/// The text of a statement by its place in the script, in bytes from the script's first.
#[derive(Clone, Copy, Debug, PartialEq, Eq)]
pub struct Piece {
    /// The place of its first byte.
    pub start: usize,
    /// The place behind its last byte.
    pub end: usize,
}

/// Pieces in order.
pub type Pieces = Sequence<Piece>;

/// Why a script is refused whole.
#[derive(Clone, Copy, Debug, PartialEq, Eq, Error)]
pub enum ScriptFault {
    /// It is not UTF-8; `at` is the place of the first byte that is not well formed.
    #[error("NotUtf8 {at}")]
    NotUtf8 { at: u64 },
    /// It has more than `MOST_STATEMENTS` statements.
    #[error("TooManyStatements")]
    TooManyStatements,
    /// The text of the statement of this number, counted from 1, has more than
    /// `MOST_STATEMENT_BYTES` bytes.
    #[error("StatementTooLong {statement}")]
    StatementTooLong { statement: u64 },
}
