//! What the journal of a run says, entry by entry.

use cube_values::EpochList;

/// Why a transaction was aborted.
#[derive(Clone, Copy, Debug, PartialEq, Eq)]
pub enum AbortCause {
    /// A ROLLBACK.
    Asked,
    /// The script ended before its COMMIT.
    EndOfScript,
    /// A LOAD met one bad record more than it allows.
    TooManyRejected,
    /// A file could not be read.
    ReadFault,
    /// Memory ran out.
    NoMemory,
    /// A shard has no room for the rows of a statement beside those that it has.
    ShardFull { shard: u32, rows: u64 },
}

/// Why a round was lost.
#[derive(Clone, Copy, Debug, PartialEq, Eq)]
pub enum LostCause {
    /// A call on a disk failed.
    Disk,
    /// Memory ran out.
    Memory,
}

/// An entry of the journal. Sessions and their statements are counted from 1. The last four are the
/// flusher's, the others are a session's.
#[derive(Debug, Drop)]
pub enum JournalEntry {
    /// A writer opened with the next epoch, while its deps were pending.
    Begin {
        session: u32,
        statement: u32,
        epoch: u64,
        deps: EpochList,
    },
    /// A reader opened at the latest committed epoch.
    Read {
        session: u32,
        statement: u32,
        epoch: u64,
    },
    /// The reader ended.
    ReadEnd {
        session: u32,
        statement: u32,
    },
    /// The writer of the epoch ended, and what it wrote stays.
    Committed {
        session: u32,
        statement: u32,
        epoch: u64,
    },
    /// The writer of the epoch ended, and nothing that it wrote stays.
    Aborted {
        session: u32,
        statement: u32,
        epoch: u64,
        cause: AbortCause,
    },
    /// The statement was refused, with the number of the refusal.
    Refused {
        session: u32,
        statement: u32,
        code: u32,
    },
    /// A ROLLBACK after the transaction was aborted.
    Cleared {
        session: u32,
        statement: u32,
    },
    /// The counters at this place were shown.
    Show {
        session: u32,
        statement: u32,
    },
    /// A round was asked for, and it ended.
    Flushed {
        session: u32,
        statement: u32,
    },
    /// Every shard was purged at the epoch.
    Purged {
        session: u32,
        statement: u32,
        epoch: u64,
    },
    /// A cube was made, with the next epoch, which was finished at once.
    Cube {
        session: u32,
        statement: u32,
        epoch: u64,
    },
    /// A round opened, with the epoch up to which it writes.
    Round {
        epoch: u64,
    },
    /// A round was asked for, and all up to the epoch was safe already.
    Idle {
        epoch: u64,
    },
    /// The round ended, and all up to the epoch is safe.
    Safe {
        epoch: u64,
    },
    /// The round ended, and what it wrote counts for nothing.
    RoundLost {
        epoch: u64,
        cause: LostCause,
    },
}
