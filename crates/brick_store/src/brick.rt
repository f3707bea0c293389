//! A brick, whose rows and vector of epochs agree after every call.

ghost use Rattle.std.specs.Prelude.{◌≡◌, ◌+◌, ◌-◌, ◌<◌, ◌≤◌, [], ◌++◌, length, max, All, IsTrue, IfOk, OnOk, OnErr};
ghost use Rattle.std.specs.List.{items_where_true};
ghost use Rattle.cube_values.specs.EpochsVector.{IsVector, vector_with_entry};
ghost use Rattle.cube_values.specs.Queries.{IsSoundQuery};
ghost use Rattle.cube_values.specs.Shapes.{IsSoundShape, bricks_of};
ghost use Rattle.cube_values.specs.Spans.{IsSoundPart, span_has_row};
ghost use Rattle.cube_values.specs.declared.entry.Entry.TheVariants.{Run, Mark};
ghost use Rattle.agg_fold.specs.Standing.{Gains, HasRoom};
ghost use Rattle.epochs_vector.specs.Without.{staying_bits, entries_without};
ghost use Rattle.purge_plan.specs.Purged.{spared_bits, purged_entries};
ghost use Rattle.cube_values.specs.Batches.{rows_between};
ghost use Rattle.brick_store.specs.Bricks.{IsRowOf};
ghost use Rattle.brick_store.specs.Copies.{round_part};
ghost use Rattle.brick_store.specs.Deltas.{rows_apart};
ghost use Rattle.brick_store.specs.Rows.{rows_shown};

use crate::copies::copy_entries;
use crate::parts::{copy_of, leave_rows, purge_entries, starts_of};
use crate::scratch::Scratch;
use agg_fold::Partial;
use brick_address::{Cover, covers};
use brick_columns::Columns;
use cube_rounds::RoundBrick;
use cube_values::{Bits, BoundQuery, CodedRows, Entries, Entry, Shape, Snapshot};
use epochs_vector::Epochs;
use std::alloc::{AllocError, Global};
use std::marker::Model;

/// The rows of one brick of a cube in the order in which they came, and a vector of epochs that says which
/// epoch appended each of them and where deletions stand. Whoever appends or marks prepares room first, and
/// then appending, marking, rolling back and purging take no memory.
#[derive(Debug, Drop)]
pub struct Brick {
    shape: Shape,
    number: u64,
    starts: Vec<u32>,
    columns: Columns,
    epochs: Epochs,
    keep: Bits,
    spare_rows: u64,
    spare_entries: u64,
}

impl Model for Brick {
    ghost use Rattle.brick_store.specs.Bricks.{BrickState};
    ghost use Rattle.brick_store.specs.Whole.{contract_view, IsWhole};

    ghost Value = { BrickState };

    ghost view = { contract_view };

    ghost invariant = { IsWhole };
}

impl Brick {
    /// The brick with a number in a cube of this shape, whose rows have so many metrics. It has no rows.
    /// It is an error where memory is wanted.
    pub fn new(alloc: Global, shape: &Shape, metrics: u32, number: u64) -> Result<Brick, AllocError>
        requires shape { IsSoundShape shape.now }
        requires number { number < bricks_of shape.now.sizes }
        ensures { IfOk result (λ made. made ≡ record {
          home = record { sizes = shape.now.sizes; metrics = metrics; number = number };
          rows = [];
          entries = [];
          spare_rows = 0;
          spare_entries = 0;
        }) }
    {
        let copied = copy_of(shape)?;
        let starts = starts_of(alloc, shape, number)?;
        let columns = Columns::new(alloc, shape, metrics)?;
        let keep = Bits::new(alloc, 0)?;
        let epochs = Epochs::new(alloc);
        Ok(Brick {
            shape: copied,
            number,
            starts,
            columns,
            epochs,
            keep,
            spare_rows: 0,
            spare_entries: 0,
        })
    }

    /// Makes room for so many more rows and entries at least. Where memory is wanted nothing changes.
    /// Memory that grows becomes twice as large.
    pub fn prepare(&mut self, rows: u64, entries: u64) -> Result<(), AllocError>
        ensures ok { OnOk result (self.new ≡ record self.old {
          spare_rows = max self.old.spare_rows rows;
          spare_entries = max self.old.spare_entries entries;
        }) }
        ensures err { OnErr result (self.new ≡ self.old) }
    {
        self.columns.reserve(rows)?;
        self.keep.reserve(self.columns.room())?;
        self.epochs.reserve(entries)?;
        self.spare_rows = self.spare_rows.max(rows);
        self.spare_entries = self.spare_entries.max(entries);
        Ok(())
    }

    /// Appends the rows of a batch from one place up to another, which are of this brick, as rows of an
    /// epoch. There is room for them and for an entry, and no memory is taken.
    pub fn append(&mut self, epoch: u64, batch: &CodedRows, from: usize, to: usize)
        requires some { from < to }
        requires within { to ≤ length batch.now.rows }
        requires rows { All (IsRowOf self.old.home) (rows_between from to batch.now.rows) }
        requires row_room { to - from ≤ self.old.spare_rows }
        requires entry_room { 1 ≤ self.old.spare_entries }
        ensures { self.new ≡ record self.old {
          rows = self.old.rows ++ rows_between from to batch.now.rows;
          entries = vector_with_entry self.old.entries
              (Run epoch (length self.old.rows + (to - from)));
          spare_rows = self.old.spare_rows - (to - from);
          spare_entries = self.old.spare_entries - 1;
        } }
    {
        let starts = self.starts.as_slice();
        self.columns.push_rows(batch, from, to, starts);
        let _rows = self.columns.len();
        self.epochs.append_rows(epoch, (to - from) as u64);
        self.spare_rows -= (to - from) as u64;
        self.spare_entries -= 1;
    }

    /// Says that an epoch deletes the brick's rows here. A mark equal to the last entry adds nothing. There
    /// is room for an entry, and no memory is taken.
    pub fn mark(&mut self, epoch: u64)
        requires { 1 ≤ self.old.spare_entries }
        ensures { self.new ≡ record self.old {
          entries = vector_with_entry self.old.entries (Mark epoch (length self.old.rows));
          spare_entries = self.old.spare_entries - 1;
        } }
    {
        self.epochs.mark(epoch);
        self.spare_entries -= 1;
    }

    /// Takes an epoch out: its rows, and its marks. It takes no memory, and where the brick has no row
    /// of the epoch it touches no column.
    pub fn rollback(&mut self, epoch: u64)
        ensures { self.new ≡ record self.old {
          rows = items_where_true (staying_bits epoch self.old.entries) self.old.rows;
          entries = entries_without epoch self.old.entries;
        } }
    {
        self.keep.reset(self.columns.len());
        self.epochs.remove_epoch(epoch, &mut self.keep);
        leave_rows(&mut self.columns, &self.keep);
    }

    /// Removes the rows that a mark at or below an epoch hides, whoever looks, and these marks. Neighbouring
    /// runs at or below the epoch become one. It takes no memory, and where no row is removed it touches
    /// no column.
    pub fn purge(&mut self, epoch: u64)
        ensures { self.new ≡ record self.old {
          rows = items_where_true (spared_bits epoch self.old.entries) self.old.rows;
          entries = purged_entries epoch self.old.entries;
        } }
    {
        self.keep.reset(self.columns.len());
        purge_entries(&mut self.epochs, epoch, &mut self.keep);
        leave_rows(&mut self.columns, &self.keep);
    }

    /// Adds to a partial the rows that the snapshot sees by the vector of epochs and that the query's span
    /// has. A brick that lies outside the span is not looked at, and in one that lies inside no row is tested.
    /// Where memory is wanted, the partial is of no more use.
    pub fn scan(
        &self,
        query: &BoundQuery,
        snapshot: &Snapshot,
        scratch: &mut Scratch,
        into: &mut Partial,
    ) -> Result<(), AllocError>
        requires sound { IsSoundQuery query.now
            (length self.now.home.sizes) self.now.home.metrics }
        requires parts { All IsSoundPart query.now.span.parts }
        requires room { HasRoom query.now (length self.now.rows) into.old.groups }
        ensures { OnOk result (Gains query.now
            (rows_shown query.now.span snapshot.now self.now.entries self.now.rows)
            into.old.groups into.new.groups) }
    {
        match covers(&self.shape, &query.span, self.number) {
            Cover::Outside => Ok(()),
            Cover::Inside => self.fold(query, snapshot, true, scratch, into),
            Cover::Cut { .. } => self.fold(query, snapshot, false, scratch, into),
        }
    }

    // Adds the rows that the snapshot sees and the span has, which may have all.
    fn fold(
        &self,
        query: &BoundQuery,
        snapshot: &Snapshot,
        all: bool,
        scratch: &mut Scratch,
        into: &mut Partial,
    ) -> Result<(), AllocError>
        requires sound { IsSoundQuery query.now
            (length self.now.home.sizes) self.now.home.metrics }
        requires all { IsTrue all
            → All (λ row. IsTrue (span_has_row query.now.span row)) self.now.rows }
        requires room { HasRoom query.now (length self.now.rows) into.old.groups }
        ensures { OnOk result (Gains query.now
            (rows_shown query.now.span snapshot.now self.now.entries self.now.rows)
            into.old.groups into.new.groups) }
    {
        let _rows = self.columns.len();
        scratch.fold_seen(
            &self.epochs,
            &self.columns,
            self.starts.as_slice(),
            query,
            snapshot,
            all,
            into,
        )
    }

    /// Adds to two partials what changes from one snapshot to another: the rows of the query's span that came,
    /// which the second sees and the first does not, and those that went, which the first sees and the second
    /// does not. Rows that both or none see are not looked at, and neither is a brick outside the span. Where
    /// memory is wanted, the partials are of no more use.
    pub fn delta(
        &self,
        query: &BoundQuery,
        from: &Snapshot,
        to: &Snapshot,
        scratch: &mut Scratch,
        came: &mut Partial,
        went: &mut Partial,
    ) -> Result<(), AllocError>
        requires sound { IsSoundQuery query.now
            (length self.now.home.sizes) self.now.home.metrics }
        requires parts { All IsSoundPart query.now.span.parts }
        requires came_room { HasRoom query.now (length self.now.rows) came.old.groups }
        requires went_room { HasRoom query.now (length self.now.rows) went.old.groups }
        ensures came { OnOk result (Gains query.now
            (rows_apart query.now.span to.now from.now self.now.entries self.now.rows)
            came.old.groups came.new.groups) }
        ensures went { OnOk result (Gains query.now
            (rows_apart query.now.span from.now to.now self.now.entries self.now.rows)
            went.old.groups went.new.groups) }
    {
        self.add_apart(query, to, from, scratch, came)?;
        self.add_apart(query, from, to, scratch, went)
    }

    // Adds the rows of the query's span that one snapshot sees and another does not.
    fn add_apart(
        &self,
        query: &BoundQuery,
        one: &Snapshot,
        other: &Snapshot,
        scratch: &mut Scratch,
        into: &mut Partial,
    ) -> Result<(), AllocError>
        requires sound { IsSoundQuery query.now
            (length self.now.home.sizes) self.now.home.metrics }
        requires parts { All IsSoundPart query.now.span.parts }
        requires room { HasRoom query.now (length self.now.rows) into.old.groups }
        ensures { OnOk result (Gains query.now
            (rows_apart query.now.span one.now other.now self.now.entries self.now.rows)
            into.old.groups into.new.groups) }
    {
        match covers(&self.shape, &query.span, self.number) {
            Cover::Outside => Ok(()),
            Cover::Inside => self.fold_apart(query, one, other, true, scratch, into),
            Cover::Cut { .. } => self.fold_apart(query, one, other, false, scratch, into),
        }
    }

    // Adds the rows that one snapshot sees, another does not, and the span has, which may have all.
    fn fold_apart(
        &self,
        query: &BoundQuery,
        one: &Snapshot,
        other: &Snapshot,
        all: bool,
        scratch: &mut Scratch,
        into: &mut Partial,
    ) -> Result<(), AllocError>
        requires sound { IsSoundQuery query.now
            (length self.now.home.sizes) self.now.home.metrics }
        requires all { IsTrue all
            → All (λ row. IsTrue (span_has_row query.now.span row)) self.now.rows }
        requires room { HasRoom query.now (length self.now.rows) into.old.groups }
        ensures { OnOk result (Gains query.now
            (rows_apart query.now.span one.now other.now self.now.entries self.now.rows)
            into.old.groups into.new.groups) }
    {
        let _rows = self.columns.len();
        scratch.fold_apart(
            &self.epochs,
            &self.columns,
            self.starts.as_slice(),
            query,
            one,
            other,
            all,
            into,
        )
    }

    /// What a round has of the brick: the entries of the epochs above one and up to another, and the rows
    /// that these appended. It is an error where memory is wanted.
    pub fn copy(&self, from: u64, to: u64) -> Result<RoundBrick, AllocError>
        ensures { IfOk result (λ part. part ≡ round_part from to self.now) }
    {
        let alloc = *self.starts.allocator();
        let _rows = self.columns.len();
        let mut epochs = Epochs::new(alloc);
        let mut batch = CodedRows::new(alloc, self.starts.len(), self.columns.width());
        copy_entries(
            alloc,
            &self.columns,
            self.starts.as_slice(),
            self.epochs.entries(),
            from,
            to,
            &mut epochs,
            &mut batch,
        )?;
        let mut entries = Vec::new(alloc);
        entries.extend_from_slice(epochs.entries())?;
        Ok(RoundBrick::new(self.number, Entries::from_vec(entries), batch))
    }

    /// The entries in order. They are a vector over the rows.
    pub fn entries(&self) -> &[Entry]
        ensures items { result.now ≡ self.now.entries }
        ensures vector { IsVector self.now.entries (length self.now.rows) }
    {
        self.epochs.entries()
    }

    /// The brick's number.
    pub fn number(&self) -> u64
        ensures { result ≡ self.now.home.number }
    {
        self.number
    }

    /// How many rows there are. Each lies in the brick.
    pub fn len(&self) -> u64
        ensures rows { result ≡ length self.now.rows }
        ensures sound { All (IsRowOf self.now.home) self.now.rows }
    {
        self.columns.len()
    }
}
