//! How a round ended.

use cube_journal::LostCause;

/// How a round ended.
#[derive(Clone, Copy, Debug, PartialEq, Eq)]
pub enum RoundResult {
    /// All up to the epoch is kept.
    Safe(u64),
    /// All up to the epoch was safe already.
    Idle(u64),
    /// What the round wrote counts for nothing.
    Lost(LostCause),
    /// Memory ran out before a round was open.
    NoMemory,
}
