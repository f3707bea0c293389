//! The one session of a run.

use session_replies::SessionMode;

/// The one session of a run, which has no watch.
#[derive(Debug, Drop)]
pub struct Session {
    /// Whether it has a transaction.
    pub mode: SessionMode,
    /// How many statements it has executed. The next one has the number above.
    pub statements: u32,
    /// How many of its transactions were committed.
    pub commits: u32,
    /// After so many commits a round follows, if after any.
    pub round_every: Option<u32>,
}

/// The number of the one session.
pub const SESSION: u32 = 1;
