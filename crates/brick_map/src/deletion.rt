//! A deletion that bricks which are not there yet wait for.

use cube_values::Span;

/// A deletion by an epoch. Its box cuts no brick.
#[derive(Debug, Drop)]
pub struct Deletion {
    pub epoch: u64,
    pub span: Span,
}
