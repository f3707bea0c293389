//! What a session is answered.

use crate::counters::Counters;
use crate::refusal::Refusal;
use cube_language::BadRow;
use cube_values::{Sequence, Table};

/// A record of a file that was not stored.
#[derive(Clone, Debug, PartialEq, Eq, Drop)]
pub struct Rejection {
    /// Its number in the file, from 1.
    pub number: u64,
    pub why: BadRow,
}

/// Rejections in order.
pub type Rejections = Sequence<Rejection>;

/// The reply to a statement.
#[derive(Debug, Drop)]
pub enum Reply {
    /// The answer to a query, and the epoch of the snapshot that it read.
    Rows {
        epoch: u64,
        table: Table,
    },
    /// How many rows were stored, and at which epoch.
    Stored {
        rows: u64,
        epoch: u64,
    },
    /// How many rows of a file were stored, how many of its records were not, the first hundred of
    /// these, or all where there are fewer, and the epoch.
    Loaded {
        rows: u64,
        rejected: u64,
        list: Rejections,
        epoch: u64,
    },
    /// Rows were deleted at the epoch.
    Dropped {
        epoch: u64,
    },
    /// A transaction of the epoch began.
    Begun {
        epoch: u64,
    },
    /// The transaction of the epoch was committed.
    Committed {
        epoch: u64,
    },
    /// The transaction of the epoch was rolled back, now or when it was aborted.
    RolledBack {
        epoch: u64,
    },
    /// All up to the epoch is safe.
    Flushed {
        epoch: u64,
    },
    /// Every shard was purged at the epoch.
    Purged {
        epoch: u64,
    },
    /// The counters.
    Epochs {
        counters: Counters,
    },
    /// A cube was made at the epoch.
    Created {
        epoch: u64,
    },
    /// The answer to the query that the session watches, and the epoch of the snapshot that shows it.
    Watching {
        epoch: u64,
        table: Table,
    },
    /// Why the statement was not done.
    Refused {
        refusal: Refusal,
    },
}
