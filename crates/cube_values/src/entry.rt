//! An entry of the vector of epochs that each brick keeps.

ghost use Rattle.std.specs.Prelude.{◌≡◌};
ghost use Rattle.cube_values.specs.EpochsVector.{maker, rows_after, with_rows_after, is_one_with};

use crate::sequence::Sequence;

/// Who appended which rows, and where a deletion stands.
#[derive(Clone, Copy, Debug, PartialEq, Eq)]
pub enum Entry {
    /// The rows from the end of the run before (or 0) up to `end` were appended by `epoch`.
    Run { epoch: u64, end: u64 },
    /// A deletion of `epoch`, made when the brick had `at` rows.
    Mark { epoch: u64, at: u64 },
}

impl Entry {
    /// The epoch that made the entry.
    pub fn maker(self) -> u64
        ensures { result ≡ maker self }
    {
        match self {
            Entry::Run { epoch, .. } | Entry::Mark { epoch, .. } => epoch,
        }
    }

    /// How many rows the brick has after the entry.
    pub fn rows_after(self) -> u64
        ensures { result ≡ rows_after self }
    {
        match self {
            Entry::Run { end, .. } => end,
            Entry::Mark { at, .. } => at,
        }
    }

    /// The entry with so many rows after it.
    pub fn with_rows_after(self, rows: u64) -> Entry
        ensures { result ≡ with_rows_after self rows }
    {
        match self {
            Entry::Run { epoch, .. } => Entry::Run { epoch, end: rows },
            Entry::Mark { epoch, .. } => Entry::Mark { epoch, at: rows },
        }
    }

    /// Whether the entry and the next one are one entry.
    pub fn is_one_with(self, next: Entry) -> bool
        ensures { result ≡ is_one_with self next }
    {
        match (self, next) {
            (Entry::Run { epoch, .. }, Entry::Run { epoch: other, .. }) => epoch == other,
            (
                Entry::Mark { epoch, at },
                Entry::Mark {
                    epoch: other,
                    at: row,
                },
            ) => { epoch == other && at == row }
            _ => false,
        }
    }
}

/// Entries in order.
pub type Entries = Sequence<Entry>;
