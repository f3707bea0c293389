//! What a step of a load answers.

use cube_language::BadRow;
use cube_values::Row;

/// What the record that was read last is. Where it is a row, the loader lends its parts.
#[derive(Debug, Drop)]
pub enum Step {
    /// A row.
    Good,
    /// No row, for the first reason.
    Bad(BadRow),
    /// There was no record left.
    End,
}

/// A record of a file with its number, counted from 1.
#[derive(Debug, Drop)]
pub enum Record {
    Good { number: u64, row: Row },
    Bad { number: u64, reason: BadRow },
    /// There was no record left.
    End,
}
