//! Where a text that spells no statement goes wrong.

use thiserror::Error;

/// A text that spells no statement; `at` is the place of the first token that no statement has there, in
/// bytes from the text's first, or of a fault among its tokens, or the text's length where it ends too early.
#[derive(Clone, Copy, Debug, PartialEq, Eq, Error)]
#[error("Syntax at {at}")]
pub struct Syntax {
    pub at: u64,
}
