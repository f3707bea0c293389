//! Small vectors of epochs, and a plain look at every run and every mark of them.

ghost use Rattle.std.specs.Prelude.{◌≡◌, true, replicate};

use cube_values::{Bits, Entry, Snapshot};
use epochs_vector::Epochs;
use std::alloc::{AllocError, Global};
use std::process::Abort;

/// The next number of a series that looks like chance.
pub fn next(seed: &mut u64) -> u64 {
    *seed = seed
        .wrapping_mul(6_364_136_223_846_793_005)
        .wrapping_add(1_442_695_040_888_963_407);
    *seed >> 33
}

/// Puts rows of the epoch, or a mark where there are none to put.
pub fn put(epochs: &mut Epochs, epoch: u64, rows: u64) -> Result<(), AllocError> {
    epochs.reserve(1)?;
    if rows == 0 {
        epochs.mark(epoch);
    } else if rows < 1000 && epochs.rows() < 1_000_000 {
        epochs.append_rows(epoch, rows);
    }
    Ok(())
}

// Two numbers with a colon between them.
fn pair_of(word: &str) -> Option<(u64, u64)> {
    let (first, second) = word.split_once(':')?;
    Some((first.parse::<u64>().ok()?, second.parse::<u64>().ok()?))
}

/// The vector of some steps, each an epoch and a number of rows: 0 where a mark is put.
pub fn vector_of(rt: &impl Abort, alloc: Global, steps: &str) -> Epochs {
    let mut epochs = Epochs::new(alloc);
    for step in steps.split_whitespace() {
        let (epoch, rows) = pair_of(step).expect(rt, "a step");
        put(&mut epochs, epoch, rows).expect(rt, "memory");
    }
    epochs
}

// An entry, as run:EPOCH:END or mark:EPOCH:AT.
fn entry_of(word: &str) -> Option<Entry> {
    let (kind, numbers) = word.split_once(':')?;
    let (epoch, at) = pair_of(numbers)?;
    if kind == "run" {
        Some(Entry::Run { epoch, end: at })
    } else if kind == "mark" {
        Some(Entry::Mark { epoch, at })
    } else {
        None
    }
}

/// Whether the entries are those of a text.
pub fn are_entries(entries: &[Entry], text: &str) -> bool {
    let mut left = entries;
    for word in text.split_whitespace() {
        let [entry, rest @ ..] = left else {
            return false;
        };
        if entry_of(word) != Some(*entry) {
            return false;
        }
        left = rest;
    }
    left.is_empty()
}

/// A bit for each of so many rows, all of them set.
pub fn all_rows(rt: &impl Abort, alloc: Global, rows: u64) -> Bits
    ensures { result.bits ≡ replicate rows true }
{
    let mut keep = Bits::new(alloc, rows).expect(rt, "memory");
    keep.reset(rows);
    keep
}

/// Whether the entry is a mark that hides row `row` of `epoch` from those who see it.
pub fn hides(entry: Entry, epoch: u64, row: u64) -> bool {
    match entry {
        Entry::Run { .. } => false,
        Entry::Mark { epoch: mark, at } => epoch < mark || (epoch == mark && row < at),
    }
}

/// The epoch of a row, by a look at every run.
pub fn epoch_of(entries: &[Entry], row: u64) -> Option<u64> {
    for entry in entries {
        if let Entry::Run { epoch, end } = *entry {
            if row < end {
                return Some(epoch);
            }
        }
    }
    None
}

/// Whether the snapshot sees the row, by a look at every run and every mark.
pub fn is_seen(entries: &[Entry], snapshot: &Snapshot, row: u64) -> bool {
    let Some(epoch) = epoch_of(entries, row) else {
        return false;
    };
    for entry in entries {
        if let Entry::Mark { epoch: mark, .. } = *entry {
            if snapshot.sees(mark) && hides(*entry, epoch, row) {
                return false;
            }
        }
    }
    snapshot.sees(epoch)
}
