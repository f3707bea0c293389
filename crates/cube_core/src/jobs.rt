//! What clients post to mails, and what comes back.

use crate::answered::AnsweredCall;
use crate::shard::ShardCall;

/// What a job asks for.
#[derive(Drop)]
pub enum Work {
    /// A round, of the flusher.
    Flush,
    /// A call, of a shard.
    Shard(ShardCall),
}

/// A job, with the session and the statement that it is for. Main and the flusher post jobs of session 0
/// and statement 0.
#[derive(Drop)]
pub struct Job {
    pub session: u32,
    pub statement: u32,
    pub work: Work,
}

/// What the flusher answers.
#[derive(Clone, Copy, Debug, PartialEq, Eq)]
pub enum FlushAnswer {
    /// A round was kept, or there was nothing to keep.
    Done,
    /// A round was lost to the disk.
    StoreFailed,
    /// Memory ran out.
    NoMemory,
}

/// The answer to a job.
#[derive(Drop)]
pub enum JobAnswer {
    Flush(FlushAnswer),
    Shard(AnsweredCall),
}
