//! What is asked of a round and how it ends.

use cube_journal::LostCause;

/// What asking for a round gives.
#[derive(Clone, Copy, Debug, PartialEq, Eq)]
pub enum RoundAnswer {
    /// A round is open that goes from the latest safe epoch up to its target.
    Target { from: u64, epoch: u64 },
    /// All up to the epoch, which would be the target, is safe already.
    Nothing { epoch: u64 },
}

/// How a round ends.
#[derive(Clone, Copy, Debug, PartialEq, Eq)]
pub enum RoundEnd {
    /// All up to its target is kept.
    Safe,
    /// What it wrote counts for nothing.
    Lost(LostCause),
}
