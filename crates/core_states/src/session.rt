//! A session of the core.

use session_replies::SessionMode;

/// A session of the core between two of its statements, without its watch.
#[derive(Debug, Drop)]
pub struct CoreSession {
    /// Its number among the sessions, from 1 on.
    pub number: u32,
    /// Whether it has a transaction.
    pub mode: SessionMode,
    /// How many statements it has executed. The next one has the number above.
    pub statements: u32,
    /// How many of its transactions were committed.
    pub commits: u32,
    /// After so many commits a round follows, if after any.
    pub round_every: Option<u32>,
}
