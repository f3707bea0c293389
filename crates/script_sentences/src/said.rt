//! What a text says.

use cube_language::{Statement, Syntax};

/// What the text of a statement says.
#[derive(Debug, Drop)]
pub enum Said {
    /// A statement.
    Statement { statement: Statement },
    /// None, which a place shows.
    Nothing { fault: Syntax },
}
