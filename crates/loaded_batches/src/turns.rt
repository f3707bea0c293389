//! What comes of records, turn by turn.

use session_batches::RowsOut;

/// What came of the next records, which were read while rows before them were appended.
#[derive(Clone, Copy, Debug, PartialEq, Eq)]
pub enum Reading {
    /// The rows before them are with their shards. These may be followed by more, or are the last.
    Rows { last: bool },
    /// One bad record more than are allowed was found.
    TooMany,
    /// A shard has so many rows, and its own of those before are too many besides.
    ShardFull { shard: u32, rows: u64 },
}

/// What came of the records of a file in a turn.
#[derive(Drop)]
pub enum LoadTurn {
    /// The rows among them are posted, and are out. There may be more records, or these were the last.
    Posted { out: RowsOut, last: bool },
    /// One bad record more than are allowed was found.
    TooMany,
    /// A shard has so many rows, and its own are too many besides.
    ShardFull { shard: u32, rows: u64 },
}

/// What came of them in all turns.
#[derive(Clone, Copy, Debug, PartialEq, Eq)]
pub enum LoadStop {
    /// No record is left, and the rows among all are with their shards.
    Done,
    /// One bad record more than are allowed was found.
    TooMany,
    /// A shard has so many rows, and its own are too many besides.
    ShardFull { shard: u32, rows: u64 },
}
