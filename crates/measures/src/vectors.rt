//! Vectors of epochs: the rows that a snapshot sees, and a purge.

ghost use Rattle.std.specs.Prelude.{◌≡◌, ◌/◌, IfOk};
ghost use Rattle.cube_values.specs.BitRows.{set_bits};
ghost use Rattle.epochs_vector.specs.Seen.{seen_rows};
ghost use Rattle.measures.specs.Checksums.{purge_sum};

use cube_values::{Bits, Entry, EpochList, Snapshot};
use epochs_vector::Epochs;
use purge_plan::plan;
use std::alloc::{AllocError, Global};
use std::marker::Model;
use timed_work::{Work, below, seeded};

/// How many epochs there are.
const EPOCHS: u64 = 1_000;

/// One entry in so many is a mark.
const MARK_EVERY: u32 = 5;

/// The rows of a run: with the marks, a vector has a hundred times as many rows as entries.
const RUN: u64 = 125;

/// A vector of so many entries: runs of epochs that rise and begin anew, and marks of early epochs.
fn vector(alloc: Global, entries: u32) -> Result<Epochs, AllocError> {
    let mut numbers = seeded();
    let mut epochs = Epochs::new(alloc);
    epochs.reserve(u64::from(entries))?;
    for entry in 0..entries {
        let epoch = u64::from(entry) % EPOCHS + 1;
        epochs.reserve(1)?;
        if entry % MARK_EVERY == MARK_EVERY - 1 {
            epochs.mark(u64::from(below(&mut numbers, 100)) + 1);
        } else if epochs.rows() < u64::MAX - RUN {
            epochs.append_rows(epoch, RUN);
        }
    }
    Ok(epochs)
}

/// A vector, and a snapshot that sees half of its epochs but for a few.
#[derive(Drop)]
pub(crate) struct Visible {
    epochs: Epochs,
    snapshot: Snapshot,
}

impl Work for Visible {
    fn prepared(alloc: Global, items: u32) -> Result<Visible, AllocError> {
        let mut deps = EpochList::new();
        deps.push(250);
        deps.push(300);
        Ok(Visible {
            epochs: vector(alloc, items)?,
            snapshot: Snapshot {
                epoch: EPOCHS / 2,
                deps,
                own: false,
            },
        })
    }

    /// The checksum is the number of rows that are seen.
    fn work(&mut self, _alloc: Global) -> Result<u64, AllocError>
        ensures { IfOk result (λ sum. sum
            ≡ set_bits (seen_rows self.old.snapshot self.old.epochs.entries)) }
    {
        let bits = self.epochs.visible_bits(&self.snapshot)?;
        Ok(bits.ones())
    }
}

/// The entries of a vector, and a bit for each row.
#[derive(Drop)]
pub(crate) struct Plan {
    entries: Vec<Entry>,
    rows: u64,
    keep: Bits,
}

impl Model for Plan {
    ghost use Rattle.std.specs.Prelude.{List, ◌≤◌};
    ghost use Rattle.cube_values.specs.EpochsVector.{IsVector};
    ghost use Rattle.cube_values.specs.declared.entry.Entry.{Entry as Item};

    ghost Value = { List Item };

    ghost view = { λ p. p.entries.items };

    ghost invariant = { λ p. IsVector p.entries.items p.rows × (p.rows ≤ p.keep.room) };
}

impl Work for Plan {
    fn prepared(alloc: Global, items: u32) -> Result<Plan, AllocError> {
        let epochs = vector(alloc, items)?;
        let rows = epochs.rows();
        Ok(Plan {
            entries: Vec::from_slice(alloc, epochs.entries())?,
            rows,
            keep: Bits::new(alloc, rows)?,
        })
    }

    /// The checksum is the number of rows that go and of entries that stay.
    fn work(&mut self, _alloc: Global) -> Result<u64, AllocError>
        ensures { IfOk result (λ sum. sum ≡ purge_sum (EPOCHS / 2) self.old) }
    {
        self.keep.reset(self.rows);
        plan(&mut self.entries, EPOCHS / 2, &mut self.keep);
        let before = self.keep.len();
        self.rows = self.keep.ones();
        let gone = before.saturating_sub(self.rows);
        Ok(gone.wrapping_add(self.entries.len() as u64))
    }
}
