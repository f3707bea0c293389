//! The bricks of one cube, with births.

ghost use Rattle.std.specs.Prelude.{◌≡◌, ℕ, ◌+◌, ◌^◌, ◌<◌, ◌≤◌, ◌∷◌, [], ◌++◌, length, filter, All, IfOk, IfSome, OnOk, OnErr, if◌then◌else◌};
ghost use Rattle.cube_values.specs.Queries.{IsSoundQuery};
ghost use Rattle.cube_values.specs.Shapes.{IsSoundCube, bricks_of};
ghost use Rattle.cube_values.specs.Spans.{IsSoundPart};
ghost use Rattle.agg_fold.specs.Standing.{Gains, HasRoom};
ghost use Rattle.brick_store.specs.Deltas.{rows_apart};
ghost use Rattle.brick_store.specs.Rows.{rows_shown};
ghost use Rattle.cube_rounds.specs.Demands.{AreRising};
ghost use Rattle.condition_spans.specs.Spans.{CutNoBrick};
ghost use Rattle.brick_map.specs.Batches.{IsRowOfCube};
ghost use Rattle.brick_map.specs.Births.{brick_in, content_purged, content_with_mark, content_with_rows, content_without, has_brick, rows_count, rows_found, rows_found_apart, rows_of_brick, cube_sizes};
ghost use Rattle.brick_map.specs.Copied.{IsCopied, part_numbered, round_part_with};
ghost use Rattle.brick_map.specs.Cubes.{HasSameBricks};
ghost use Rattle.brick_map.specs.Waiting.{is_above, is_of_other};

use crate::append::append_runs;
use crate::birth::prepare_runs;
use crate::deletion::Deletion;
use crate::list::BrickList;
use crate::order::{begin_in_order, by_brick};
use crate::passes::{compare_each, count_rows, scan_each};
use crate::recent::{forget_epoch, forget_up_to};
use crate::runs::runs_of;
use agg_fold::Partial;
use brick_address::bricks_of;
use brick_store::Scratch;
use cube_rounds::RoundBrickList;
use cube_values::{BoundQuery, CodedRows, CubeShape, Snapshot, Span};
use std::alloc::{AllocError, Global};
use std::marker::Model;

// The most rows of a batch that are put in the order of their bricks: their places fit into 32 bits.
const MOST_ORDERED: u64 = 4_294_967_295;

/// The bricks of one cube that a shard has. A brick is born when its first row comes. The deletions that
/// may still hide rows of a brick which is not there are kept until a purge passes them.
#[derive(Drop)]
pub struct CubeBricks {
    shape: CubeShape,
    list: BrickList,
    recent: Vec<Deletion>,
    rows: u64,
}

impl Model for CubeBricks {
    ghost use Rattle.brick_map.specs.Births.{CubeState};
    ghost use Rattle.brick_map.specs.Copied.{IsCopied, part_numbered, round_part_with};
    ghost use Rattle.brick_map.specs.Cubes.{cube_state, IsCubeWhole};

    ghost Value = { CubeState };

    ghost view = { cube_state };

    ghost invariant = { IsCubeWhole };
}

impl CubeBricks {
    /// No bricks of a cube of this shape. It is an error where memory is wanted.
    pub fn new(alloc: Global, shape: &CubeShape) -> Result<CubeBricks, AllocError>
        requires { IsSoundCube shape.now }
        ensures { IfOk result
            (λ cube. cube ≡ record { shape = shape.now; bricks = []; recent = [] }) }
    {
        let copied = shape.clone()?;
        Ok(CubeBricks {
            shape: copied,
            list: BrickList::new(alloc),
            recent: Vec::new(alloc),
            rows: 0,
        })
    }

    /// How many rows the bricks have.
    pub fn rows(&self) -> u64
        ensures { result ≡ rows_count self.now.bricks }
    {
        self.rows
    }

    /// How many bricks there are.
    pub fn bricks(&self) -> usize
        ensures { result ≡ length self.now.bricks }
    {
        self.list.as_slice().len()
    }

    /// Appends a batch of rows of the cube as rows of an epoch. A brick that is not there is born, with the
    /// marks of the deletions that wait for it. All bricks get their room first: where memory is wanted, no
    /// brick has other rows or marks than before, and bricks without rows may have been born.
    pub fn append(&mut self, epoch: u64, batch: &CodedRows) -> Result<(), AllocError>
        requires rows { All (IsRowOfCube self.old.shape) batch.now.rows }
        requires few { rows_count self.old.bricks + length batch.now.rows < 2 ^ 63 }
        ensures appended { OnOk result ((number : ℕ) → brick_in self.new number
            ≡ content_with_rows epoch
            (rows_of_brick (cube_sizes self.old) number batch.now.rows)
            (brick_in self.old number)) }
        ensures count { OnOk result
            (rows_count self.new.bricks ≡ rows_count self.old.bricks + length batch.now.rows) }
        ensures err { OnErr result (HasSameBricks self.old self.new) }
        ensures shape { self.new.shape ≡ self.old.shape }
        ensures recent { self.new.recent ≡ self.old.recent }
    {
        let rows = batch.len() as u64;
        let bricks = bricks_of(self.shape.shape.sizes.as_slice());
        // A run costs more than a row does, and rows in no order make about as many runs as rows.
        if bricks > rows || rows > MOST_ORDERED || begin_in_order(&self.shape.shape, batch) {
            return self.append_by_runs(epoch, batch);
        }
        let alloc = *self.recent.allocator();
        let ordered = by_brick(alloc, &self.shape, bricks as u32, batch)?;
        self.append_by_runs(epoch, &ordered)
    }

    // The same, which costs time for each run of rows of one brick.
    fn append_by_runs(&mut self, epoch: u64, batch: &CodedRows) -> Result<(), AllocError>
        requires rows { All (IsRowOfCube self.old.shape) batch.now.rows }
        requires few { rows_count self.old.bricks + length batch.now.rows < 2 ^ 63 }
        ensures appended { OnOk result ((number : ℕ) → brick_in self.new number
            ≡ content_with_rows epoch
            (rows_of_brick (cube_sizes self.old) number batch.now.rows)
            (brick_in self.old number)) }
        ensures count { OnOk result
            (rows_count self.new.bricks ≡ rows_count self.old.bricks + length batch.now.rows) }
        ensures err { OnErr result (HasSameBricks self.old self.new) }
        ensures shape { self.new.shape ≡ self.old.shape }
        ensures recent { self.new.recent ≡ self.old.recent }
    {
        let alloc = *self.recent.allocator();
        let runs = runs_of(alloc, &self.shape.shape, batch)?;
        let parts = runs.as_slice();
        let waiting = self.recent.as_slice();
        prepare_runs(&mut self.list, alloc, &self.shape, waiting, parts, batch)?;
        append_runs(&mut self.list, &self.shape, epoch, batch, parts);
        self.rows += batch.len() as u64;
        Ok(())
    }

    /// An epoch deletes the rows in a box that cuts no brick, and waits for the bricks that are not there.
    /// Where memory is wanted nothing changes.
    pub fn drop_box(&mut self, epoch: u64, span: &Span) -> Result<(), AllocError>
        requires parts { All IsSoundPart span.now.parts }
        requires whole { CutNoBrick (cube_sizes self.old) span.now.parts }
        ensures deleted { OnOk result ((number : ℕ) → brick_in self.new number
            ≡ (if has_brick (cube_sizes self.old) span.now number
            then content_with_mark epoch (brick_in self.old number)
            else brick_in self.old number)) }
        ensures waits { OnOk result (self.new.recent
            ≡ self.old.recent ++ record { epoch = epoch; span = span.now } ∷ []) }
        ensures count { rows_count self.new.bricks ≡ rows_count self.old.bricks }
        ensures err { OnErr result (HasSameBricks self.old self.new) }
        ensures err_waits { OnErr result (self.new.recent ≡ self.old.recent) }
        ensures shape { self.new.shape ≡ self.old.shape }
    {
        let copied = span.copy()?;
        self.recent.reserve(1)?;
        self.list.prepare_deletions(&self.shape.shape, span)?;
        self.list.delete(&self.shape.shape, span, epoch);
        self.recent.push_reserved(Deletion {
            epoch,
            span: copied,
        });
        Ok(())
    }

    /// Takes an epoch out: its rows, its marks, and its deletions that wait. It takes no memory.
    pub fn rollback(&mut self, epoch: u64)
        ensures bricks { (number : ℕ) → brick_in self.new number
            ≡ content_without epoch (brick_in self.old number) }
        ensures fewer { rows_count self.new.bricks ≤ rows_count self.old.bricks }
        ensures waits { self.new.recent ≡ filter (is_of_other epoch) self.old.recent }
        ensures shape { self.new.shape ≡ self.old.shape }
    {
        self.list.rollback(epoch);
        forget_epoch(&mut self.recent, epoch);
        self.rows = count_rows(self.list.as_slice());
    }

    /// Removes the rows that a mark at or below an epoch hides, whoever looks, these marks, and the
    /// deletions at or below it that wait. It takes no memory.
    pub fn purge(&mut self, epoch: u64)
        ensures bricks { (number : ℕ) → brick_in self.new number
            ≡ content_purged epoch (brick_in self.old number) }
        ensures fewer { rows_count self.new.bricks ≤ rows_count self.old.bricks }
        ensures waits { self.new.recent ≡ filter (is_above epoch) self.old.recent }
        ensures shape { self.new.shape ≡ self.old.shape }
    {
        self.list.purge(epoch);
        forget_up_to(&mut self.recent, epoch);
        self.rows = count_rows(self.list.as_slice());
    }

    /// Adds to a partial the rows of the cube that the snapshot sees and the query's span has, brick by
    /// brick. After an error, which is want of memory, the partial is to be dropped.
    pub fn scan(
        &self,
        query: &BoundQuery,
        snapshot: &Snapshot,
        scratch: &mut Scratch,
        into: &mut Partial,
    ) -> Result<(), AllocError>
        requires sound { IsSoundQuery query.now
            (length (cube_sizes self.now)) self.now.shape.metrics }
        requires parts { All IsSoundPart query.now.span.parts }
        requires room { HasRoom query.now (rows_count self.now.bricks) into.old.groups }
        ensures found { OnOk result (Gains query.now
            (rows_found query.now.span snapshot.now self.now.bricks)
            into.old.groups into.new.groups) }
        ensures by_brick { OnOk result ((number : ℕ) → rows_of_brick (cube_sizes self.now) number
            (rows_found query.now.span snapshot.now self.now.bricks)
            ≡ rows_shown query.now.span snapshot.now
            (brick_in self.now number).entries (brick_in self.now number).rows) }
    {
        scan_each(self.list.as_slice(), query, snapshot, scratch, into)?;
        Ok(())
    }

    /// Adds to two partials what changes from one snapshot to another: the rows of the query's span that came,
    /// which the second sees and the first does not, and those that went, which the first sees and the second
    /// does not, brick by brick. After an error, which is want of memory, the partials are to be dropped.
    pub fn delta(
        &self,
        query: &BoundQuery,
        from: &Snapshot,
        to: &Snapshot,
        scratch: &mut Scratch,
        came: &mut Partial,
        went: &mut Partial,
    ) -> Result<(), AllocError>
        requires sound { IsSoundQuery query.now
            (length (cube_sizes self.now)) self.now.shape.metrics }
        requires parts { All IsSoundPart query.now.span.parts }
        requires came_room { HasRoom query.now (rows_count self.now.bricks) came.old.groups }
        requires went_room { HasRoom query.now (rows_count self.now.bricks) went.old.groups }
        ensures came { OnOk result (Gains query.now
            (rows_found_apart query.now.span to.now from.now self.now.bricks)
            came.old.groups came.new.groups) }
        ensures went { OnOk result (Gains query.now
            (rows_found_apart query.now.span from.now to.now self.now.bricks)
            went.old.groups went.new.groups) }
        ensures came_by_brick { OnOk result ((number : ℕ)
            → rows_of_brick (cube_sizes self.now) number
            (rows_found_apart query.now.span to.now from.now self.now.bricks)
            ≡ rows_apart query.now.span to.now from.now
            (brick_in self.now number).entries (brick_in self.now number).rows) }
        ensures went_by_brick { OnOk result ((number : ℕ)
            → rows_of_brick (cube_sizes self.now) number
            (rows_found_apart query.now.span from.now to.now self.now.bricks)
            ≡ rows_apart query.now.span from.now to.now
            (brick_in self.now number).entries (brick_in self.now number).rows) }
    {
        compare_each(self.list.as_slice(), query, from, to, scratch, came, went)?;
        Ok(())
    }

    /// What a round from one epoch up to another has of each brick with entries of it, by rising number. A
    /// brick that is not there has no rows, and is left out. It is an error where memory is wanted.
    pub fn copy(&self, from: u64, to: u64) -> Result<RoundBrickList, AllocError>
        ensures rising { IfOk result (AreRising 0) }
        ensures parts { IfOk result (λ parts. (number : ℕ)
            → IsCopied (round_part_with from to number (brick_in self.now number))
            (brick_in self.now number).rows (part_numbered number parts)) }
        ensures there { IfOk result (λ parts. (number : ℕ)
            → IfSome (part_numbered number parts)
            (λ part. number < bricks_of (cube_sizes self.now))) }
    {
        let parts = self.list.copy(from, to)?;
        Ok(RoundBrickList::from_vec(parts))
    }
}
