//! A shard, whose rows are within its limit after every call.

ghost use Rattle.std.specs.Prelude.{◌≡◌, ℕ, ◌+◌, ◌-◌, ◌^◌, ◌<◌, ◌≤◌, ◌∷◌, [], ◌++◌, length, filter, replicate, slice_index_or, min, All, None, IfOk, OnOk, OnErr};
ghost use Rattle.cube_language.specs.declared.decl.TheConstants.{MOST_CUBES};
ghost use Rattle.cube_values.specs.Queries.{IsSoundQuery};
ghost use Rattle.cube_values.specs.Shapes.{IsSoundCube};
ghost use Rattle.cube_values.specs.Spans.{IsSoundPart};
ghost use Rattle.condition_spans.specs.Spans.{CutNoBrick};
ghost use Rattle.brick_map.specs.Batches.{IsRowOfCube};
ghost use Rattle.brick_map.specs.Births.{content_purged, content_without};
ghost use Rattle.brick_map.specs.Waiting.{is_above, is_of_other};
ghost use Rattle.shard_cell.specs.Answers.{HasSameShard, RefusesAbove, brick_after_append, brick_after_drop, waits_after_drop, brick_rows_apart, brick_rows_shown, reader_at};
ghost use Rattle.shard_cell.specs.Slots.{AreGroupsOf, IsSlotCopy};
ghost use Rattle.shard_cell.specs.Shards.{cube_at, HasShapeAt, KeepsShapes, KeepsShapesWith, shard_bricks, shard_brick, shard_rows, shard_waits};

use crate::full::ShardFull;
use crate::passes::{copy_each, count_bricks, count_rows, empty_cubes, purge_each, rollback_each};
use crate::slot::CubeSlot;
use agg_fold::Partial;
use cube_language::MOST_CUBES;
use cube_rounds::RoundBricks;
use cube_values::{BoundQuery, CallError, CodedRows, CubeShape, EpochList, Snapshot, Span};
use standing_query::Change;
use std::alloc::{AllocError, Global};
use std::marker::Model;

/// The bricks of a shard. The shape of a cube comes with the first call on it.
#[derive(Drop)]
pub struct Shard {
    cubes: Vec<CubeSlot>,
    limit: u64,
    rows: u64,
}

impl Model for Shard {
    ghost use Rattle.shard_cell.specs.Shards.{ShardState, shard_state, IsShardWhole};

    ghost Value = { ShardState };

    ghost view = { shard_state };

    ghost invariant = { IsShardWhole };
}

impl Shard {
    /// A shard without bricks that takes so many rows. There is room for all cubes. It is an error where
    /// memory is wanted.
    pub fn new(alloc: Global, limit: u64) -> Result<Shard, AllocError>
        requires { limit ≤ 2 ^ 40 }
        ensures { IfOk result (λ shard. shard ≡ record {
          cubes = replicate MOST_CUBES None;
          limit = limit;
        }) }
    {
        let cubes = empty_cubes(alloc, MOST_CUBES)?;
        Ok(Shard {
            cubes,
            limit,
            rows: 0,
        })
    }

    /// What it takes memory of.
    pub fn alloc(&self) -> Global {
        *self.cubes.allocator()
    }

    /// How many rows there are.
    pub fn rows(&self) -> u64
        ensures rows { result ≡ shard_rows self.now }
        ensures within { result ≤ self.now.limit }
    {
        self.rows
    }

    /// Appends a batch of rows of a cube as rows of an epoch. It is refused exactly where the rows would
    /// come to be above the limit. A brick that is not there is born, with the marks of the deletions that
    /// wait for it. Where it is refused or memory is wanted, no brick has other rows or marks than before.
    pub fn append(
        &mut self,
        cube: u32,
        shape: &CubeShape,
        epoch: u64,
        batch: &CodedRows,
    ) -> Result<(), CallError<ShardFull>>
        requires shape { HasShapeAt shape.now cube self.old }
        requires rows { All (IsRowOfCube shape.now) batch.now.rows }
        ensures full { RefusesAbove self.old.limit (shard_rows self.old)
            (length batch.now.rows) result }
        ensures appended { OnOk result ((other number : ℕ) → shard_brick self.new other number
            ≡ brick_after_append shape.now.shape.sizes cube epoch batch.now.rows self.old
            other number) }
        ensures count { OnOk result
            (shard_rows self.new ≡ shard_rows self.old + length batch.now.rows) }
        ensures waits { (other : ℕ) → shard_waits self.new other ≡ shard_waits self.old other }
        ensures err { OnErr result (HasSameShard self.old self.new) }
        ensures shapes { KeepsShapesWith cube shape.now self.old self.new }
        ensures limit { self.new.limit ≡ self.old.limit }
    {
        let more = batch.len() as u64;
        if self.limit - self.rows < more {
            return Err(CallError::Fault(ShardFull { rows: self.rows }));
        }
        let alloc = *self.cubes.allocator();
        let slot = &mut self.cubes[cube as usize];
        slot.append(alloc, shape, epoch, batch)?;
        self.rows += more;
        Ok(())
    }

    /// An epoch deletes the rows of a cube in a box that cuts no brick, and waits for the bricks that are
    /// not there. Where memory is wanted no brick has other rows or marks than before.
    pub fn drop_box(
        &mut self,
        cube: u32,
        shape: &CubeShape,
        epoch: u64,
        span: &Span,
    ) -> Result<(), AllocError>
        requires shape { HasShapeAt shape.now cube self.old }
        requires parts { All IsSoundPart span.now.parts }
        requires whole { CutNoBrick shape.now.shape.sizes span.now.parts }
        ensures deleted { OnOk result ((other number : ℕ) → shard_brick self.new other number
            ≡ brick_after_drop shape.now.shape.sizes cube epoch span.now self.old other number) }
        ensures waits { OnOk result ((other : ℕ) → shard_waits self.new other
            ≡ waits_after_drop cube epoch span.now self.old other) }
        ensures count { shard_rows self.new ≡ shard_rows self.old }
        ensures err { OnErr result (HasSameShard self.old self.new) }
        ensures shapes { KeepsShapesWith cube shape.now self.old self.new }
        ensures limit { self.new.limit ≡ self.old.limit }
    {
        let alloc = *self.cubes.allocator();
        let slot = &mut self.cubes[cube as usize];
        slot.drop_box(alloc, shape, epoch, span)?;
        Ok(())
    }

    /// Takes an epoch out of all bricks: its rows, its marks, and its deletions that wait. It takes no
    /// memory.
    pub fn rollback(&mut self, epoch: u64)
        ensures bricks { (cube number : ℕ) → shard_brick self.new cube number
            ≡ content_without epoch (shard_brick self.old cube number) }
        ensures waits { (cube : ℕ) → shard_waits self.new cube
            ≡ filter (is_of_other epoch) (shard_waits self.old cube) }
        ensures fewer { shard_rows self.new ≤ shard_rows self.old }
        ensures shapes { KeepsShapes self.old self.new }
        ensures limit { self.new.limit ≡ self.old.limit }
    {
        rollback_each(self.cubes.as_mut_slice(), epoch);
        self.rows = count_rows(self.cubes.as_slice());
    }

    /// Removes from all bricks the rows that a mark at or below an epoch hides, whoever looks, these marks,
    /// and the deletions at or below it that wait. It takes no memory.
    pub fn purge(&mut self, epoch: u64)
        ensures bricks { (cube number : ℕ) → shard_brick self.new cube number
            ≡ content_purged epoch (shard_brick self.old cube number) }
        ensures waits { (cube : ℕ) → shard_waits self.new cube
            ≡ filter (is_above epoch) (shard_waits self.old cube) }
        ensures fewer { shard_rows self.new ≤ shard_rows self.old }
        ensures shapes { KeepsShapes self.old self.new }
        ensures limit { self.new.limit ≡ self.old.limit }
    {
        purge_each(self.cubes.as_mut_slice(), epoch);
        self.rows = count_rows(self.cubes.as_slice());
    }

    /// The rows of the query's cube that the snapshot sees and the query's span has. It is an error where
    /// memory is wanted.
    pub fn scan(
        &self,
        shape: &CubeShape,
        query: &BoundQuery,
        snapshot: &Snapshot,
    ) -> Result<Partial, AllocError>
        requires shape { HasShapeAt shape.now query.now.cube self.now }
        requires sound { IsSoundQuery query.now
            (length shape.now.shape.sizes) shape.now.metrics }
        requires parts { All IsSoundPart query.now.span.parts }
        ensures { IfOk result (λ found. AreGroupsOf query.now shape.now.shape.sizes self.now.limit
            (λ number. brick_rows_shown query.now.span snapshot.now
            (shard_brick self.now query.now.cube number))
            found.groups) }
    {
        let slot = &self.cubes[query.cube as usize];
        let found = slot.scan(*self.cubes.allocator(), shape, query, snapshot)?;
        Ok(found)
    }

    /// What changes for the query from the reader at one epoch to the reader at another: the rows of its
    /// span that the second sees and the first does not, and those that the first sees and the second does
    /// not. It is an error where memory is wanted.
    pub fn delta(
        &self,
        shape: &CubeShape,
        query: &BoundQuery,
        from: u64,
        to: u64,
    ) -> Result<Change, AllocError>
        requires shape { HasShapeAt shape.now query.now.cube self.now }
        requires sound { IsSoundQuery query.now
            (length shape.now.shape.sizes) shape.now.metrics }
        requires parts { All IsSoundPart query.now.span.parts }
        ensures came { IfOk result (λ change. AreGroupsOf query.now
            shape.now.shape.sizes self.now.limit
            (λ number. brick_rows_apart query.now.span (reader_at to) (reader_at from)
            (shard_brick self.now query.now.cube number))
            change.came.groups) }
        ensures went { IfOk result (λ change. AreGroupsOf query.now
            shape.now.shape.sizes self.now.limit
            (λ number. brick_rows_apart query.now.span (reader_at from) (reader_at to)
            (shard_brick self.now query.now.cube number))
            change.went.groups) }
    {
        let slot = &self.cubes[query.cube as usize];
        let before = reader_at(from);
        let after = reader_at(to);
        let change = slot.delta(*self.cubes.allocator(), shape, query, &before, &after)?;
        Ok(change)
    }

    /// For each cube what a round from one epoch up to another has of each brick with entries of it, by
    /// rising number. A brick that is not there has no rows, and is left out. It is an error where memory is
    /// wanted.
    pub fn copy_round(&self, from: u64, to: u64) -> Result<RoundBricks, AllocError>
        ensures cubes { IfOk result (λ copied. length copied ≡ MOST_CUBES) }
        ensures parts { IfOk result (λ copied. (cube : ℕ) → IsSlotCopy from to
            (cube_at self.now cube) (slice_index_or copied cube [])) }
    {
        let alloc = *self.cubes.allocator();
        let copied = copy_each(alloc, self.cubes.as_slice(), from, to)?;
        Ok(RoundBricks::from_vec(copied))
    }

    /// How many bricks there are, or `usize::MAX` where they are more.
    pub fn bricks(&self) -> usize
        ensures { result ≡ min (shard_bricks self.now) (2 ^ 64 - 1) }
    {
        count_bricks(self.cubes.as_slice())
    }
}

// A reader at an epoch.
fn reader_at(epoch: u64) -> Snapshot
    ensures { result ≡ reader_at epoch }
{
    Snapshot {
        epoch,
        deps: EpochList::new(),
        own: false,
    }
}
