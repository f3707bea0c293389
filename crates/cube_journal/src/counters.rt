//! The counters of a journal, and the snapshots that are open.

use cube_values::{EpochList, Snapshot};

/// The counters of AOSI.
#[derive(Debug, Drop)]
pub struct Counters {
    /// The next epoch.
    pub ec: u64,
    /// The latest committed epoch: every epoch up to it is finished.
    pub lce: u64,
    /// The latest safe epoch: every epoch up to it is kept by a round.
    pub lse: u64,
    /// The epochs of the transactions that are under way. They rise.
    pub pending: EpochList,
}

/// A snapshot that is open.
#[derive(Debug, Drop)]
pub struct OpenSnapshot {
    /// The session that holds it.
    pub session: u32,
    /// The latest committed epoch when it was opened.
    pub bound: u64,
    pub snapshot: Snapshot,
}
