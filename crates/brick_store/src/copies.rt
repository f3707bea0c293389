//! What a round has of a brick: some of its entries, and their rows.

ghost use Rattle.std.specs.Prelude.{◌≡◌, ◌+◌, ◌-◌, ◌<◌, ◌≤◌, [], ◌∷◌, ◌++◌, length, map, fold, OnOk};
ghost use Rattle.cube_values.specs.EpochsVector.{IsVector, Leads, rows_after, rows_of, vector_with_entry};
ghost use Rattle.cube_values.specs.declared.entry.Entry.TheVariants.{Run};
ghost use Rattle.brick_columns.specs.Rows.{row_at};
ghost use Rattle.cube_rounds.specs.Bricks.{entries_with_rows};
ghost use Rattle.cube_values.specs.Batches.{rows_between};
ghost use Rattle.brick_store.specs.Copies.{entries_of_epochs, is_of_epochs, rows_of_entries, vector_of_entries, vector_with_rows};
ghost use Rattle.brick_store.specs.Whole.{HaveCoordsFrom, row_with_coords};

use crate::rows::read_row;
use brick_columns::Columns;
use cube_values::{CodedRows, Entry};
use epochs_vector::Epochs;
use std::alloc::{AllocError, Global};

/// Puts the entries of the epochs above `from` and up to `to` into a vector, and their rows into a batch.
pub fn copy_entries(
    alloc: Global,
    columns: &Columns,
    starts: &[u32],
    entries: &[Entry],
    from: u64,
    to: u64,
    epochs: &mut Epochs,
    batch: &mut CodedRows,
) -> Result<(), AllocError>
    requires readable { HaveCoordsFrom starts.now columns.now }
    requires vector { IsVector entries.now (length columns.now.rows) }
    requires none { epochs.old.entries ≡ [] }
    requires empty { batch.old.rows ≡ [] }
    requires dims { batch.old.dims ≡ length starts.now }
    requires width { batch.old.width ≡ columns.now.layout.metrics }
    ensures entries { OnOk result (epochs.new.entries ≡ vector_of_entries
        (entries_of_epochs from to
        (entries_with_rows 0 (map (row_with_coords starts.now) columns.now.rows) entries.now))) }
    ensures rows { OnOk result (batch.new.rows ≡ rows_of_entries
        (entries_of_epochs from to
        (entries_with_rows 0 (map (row_with_coords starts.now) columns.now.rows) entries.now))) }
    ensures vector { OnOk result (IsVector epochs.new.entries (length batch.new.rows)) }
{
    let mut first = 0;
    let mut left = entries;
    'entries: while let [entry, rest @ ..] = left {
        copy_chosen(
            alloc, columns, starts, *entry, first, from, to, epochs, batch,
        )?;
        first = entry.rows_after();
        left = rest;
    }
    Ok(())
}

// Whether an entry is of an epoch above one and up to another.
fn is_between(entry: Entry, from: u64, to: u64) -> bool
    ensures { result ≡ is_of_epochs from to entry }
{
    let epoch = entry.maker();
    from < epoch && epoch <= to
}

// Puts an entry behind so many rows to others, and its rows to theirs, where it is of such an epoch.
fn copy_chosen(
    alloc: Global,
    columns: &Columns,
    starts: &[u32],
    entry: Entry,
    first: u64,
    from: u64,
    to: u64,
    epochs: &mut Epochs,
    batch: &mut CodedRows,
) -> Result<(), AllocError>
    requires readable { HaveCoordsFrom starts.now columns.now }
    requires leads { Leads first (entry ∷ []) (rows_after entry) }
    requires within { rows_after entry ≤ length columns.now.rows }
    requires vector { IsVector epochs.old.entries (length batch.old.rows) }
    requires few { length batch.old.rows ≤ first }
    requires dims { batch.old.dims ≡ length starts.now }
    requires width { batch.old.width ≡ columns.now.layout.metrics }
    ensures entries { OnOk result (epochs.new.entries ≡ fold vector_with_rows epochs.old.entries
        (entries_of_epochs from to
        (entries_with_rows first
        (map (row_with_coords starts.now) columns.now.rows) (entry ∷ [])))) }
    ensures rows { OnOk result (batch.new.rows ≡ batch.old.rows ++ rows_of_entries
        (entries_of_epochs from to
        (entries_with_rows first
        (map (row_with_coords starts.now) columns.now.rows) (entry ∷ [])))) }
    ensures vector { OnOk result (IsVector epochs.new.entries (length batch.new.rows)) }
    ensures few { OnOk result (length batch.new.rows ≤ rows_after entry) }
    ensures dims { batch.new.dims ≡ batch.old.dims }
    ensures width { batch.new.width ≡ batch.old.width }
{
    if is_between(entry, from, to) {
        copy_entry(alloc, columns, starts, entry, first, epochs, batch)
    } else {
        Ok(())
    }
}

// Puts an entry behind so many rows to others, and its rows to theirs.
fn copy_entry(
    alloc: Global,
    columns: &Columns,
    starts: &[u32],
    entry: Entry,
    first: u64,
    epochs: &mut Epochs,
    batch: &mut CodedRows,
) -> Result<(), AllocError>
    requires readable { HaveCoordsFrom starts.now columns.now }
    requires leads { Leads first (entry ∷ []) (rows_after entry) }
    requires within { rows_after entry ≤ length columns.now.rows }
    requires vector { IsVector epochs.old.entries (length batch.old.rows) }
    requires few { length batch.old.rows ≤ first }
    requires dims { batch.old.dims ≡ length starts.now }
    requires width { batch.old.width ≡ columns.now.layout.metrics }
    ensures entries { OnOk result (epochs.new.entries ≡ fold vector_with_rows epochs.old.entries
        (entries_with_rows first
        (map (row_with_coords starts.now) columns.now.rows) (entry ∷ []))) }
    ensures rows { OnOk result (batch.new.rows ≡ batch.old.rows ++ rows_of_entries
        (entries_with_rows first
        (map (row_with_coords starts.now) columns.now.rows) (entry ∷ []))) }
    ensures vector { OnOk result (IsVector epochs.new.entries (length batch.new.rows)) }
    ensures few { OnOk result (length batch.new.rows ≤ rows_after entry) }
    ensures dims { batch.new.dims ≡ batch.old.dims }
    ensures width { batch.new.width ≡ batch.old.width }
{
    let _rows = columns.len();
    epochs.reserve(1)?;
    match entry {
        Entry::Run { epoch, end } => {
            copy_rows(alloc, columns, starts, first, end, batch)?;
            epochs.append_rows(epoch, end - first);
        }
        Entry::Mark { epoch, .. } => {
            epochs.mark(epoch);
        }
    }
    Ok(())
}

// Puts the rows from one place up to another to those of a batch.
fn copy_rows(
    alloc: Global,
    columns: &Columns,
    starts: &[u32],
    first: u64,
    end: u64,
    batch: &mut CodedRows,
) -> Result<(), AllocError>
    requires readable { HaveCoordsFrom starts.now columns.now }
    requires order { first ≤ end }
    requires within { end ≤ length columns.now.rows }
    requires few { length batch.old.rows ≤ first }
    requires dims { batch.old.dims ≡ length starts.now }
    requires width { batch.old.width ≡ columns.now.layout.metrics }
    ensures rows { OnOk result (batch.new.rows ≡ batch.old.rows
        ++ rows_between first end (map (row_with_coords starts.now) columns.now.rows)) }
    ensures dims { batch.new.dims ≡ batch.old.dims }
    ensures width { batch.new.width ≡ batch.old.width }
{
    let mut coords = vec![in alloc; 0; starts.len()]?;
    let mut metrics = vec![in alloc; 0; columns.width()]?;
    batch.reserve(batch.len() + (end - first) as usize)?;
    'rows: for row in first..end {
        copy_row(
            columns,
            starts,
            row,
            coords.as_mut_slice(),
            metrics.as_mut_slice(),
            batch,
        );
    }
    Ok(())
}

// Puts a row at the end of a batch, in room that there is. The lists are lent for its coordinates
// and metrics.
fn copy_row(
    columns: &Columns,
    starts: &[u32],
    row: u64,
    coords: &mut [u32],
    metrics: &mut [i64],
    batch: &mut CodedRows,
)
    requires row { row < length columns.now.rows }
    requires readable { HaveCoordsFrom starts.now columns.now }
    requires coords_long { length coords.old ≡ length starts.now }
    requires metrics_long { length metrics.old ≡ columns.now.layout.metrics }
    requires room { length batch.old.rows < batch.old.room }
    requires dims { batch.old.dims ≡ length starts.now }
    requires width { batch.old.width ≡ columns.now.layout.metrics }
    ensures batch { batch.new ≡ record batch.old {
      rows = batch.old.rows ++ row_with_coords starts.now (row_at columns.now.rows row) ∷ [];
    } }
    ensures coords_long { length coords.new ≡ length coords.old }
    ensures metrics_long { length metrics.new ≡ length metrics.old }
{
    read_row(columns, starts, row, coords, metrics);
    batch.push(coords, metrics);
}
