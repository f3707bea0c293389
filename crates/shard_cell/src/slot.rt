//! The bricks of one cube on a shard, which are made when something of the cube comes.

ghost use Rattle.std.specs.Prelude.{◌≡◌, ℕ, ◌+◌, ◌^◌, ◌<◌, ◌≤◌, ◌∷◌, [], ◌++◌, length, filter, All, None, IsSome, IfOk, OnOk, OnErr, if◌then◌else◌};
ghost use Rattle.cube_values.specs.Queries.{IsSoundQuery};
ghost use Rattle.cube_values.specs.Shapes.{IsSoundCube};
ghost use Rattle.cube_values.specs.Spans.{IsSoundPart};
ghost use Rattle.condition_spans.specs.Spans.{CutNoBrick};
ghost use Rattle.brick_map.specs.Batches.{IsRowOfCube};
ghost use Rattle.brick_map.specs.Births.{content_purged, content_with_mark, content_with_rows, content_without, has_brick, rows_of_brick};
ghost use Rattle.brick_map.specs.Waiting.{is_above, is_of_other};
ghost use Rattle.shard_cell.specs.Answers.{brick_rows_apart, brick_rows_shown};
ghost use Rattle.shard_cell.specs.Slots.{AreGroupsOf, HasSameSlot, HasShape, IsSlotAfter, IsSlotCopy, slot_brick, slot_bricks, slot_rows, slot_waits};

use agg_fold::Partial;
use brick_map::CubeBricks;
use brick_store::Scratch;
use cube_rounds::RoundBrickList;
use cube_values::{BoundQuery, CodedRows, CubeShape, Snapshot, Span};
use standing_query::Change;
use std::alloc::{AllocError, Global};
use std::marker::Model;

/// The bricks of one cube, or none where nothing of the cube came.
#[derive(Drop)]
pub struct CubeSlot {
    bricks: Option<CubeBricks>,
}

impl Model for CubeSlot {
    ghost use Rattle.std.specs.Prelude.{Option};
    ghost use Rattle.brick_map.specs.Births.{CubeState};

    ghost Value = { Option CubeState };

    ghost view = { λ s. s.bricks };
}

impl CubeSlot {
    /// Nothing came yet. It takes no memory.
    pub fn new() -> CubeSlot
        ensures { result ≡ None }
    {
        CubeSlot { bricks: None }
    }

    /// How many rows there are.
    pub fn rows(&self) -> u64
        ensures { result ≡ slot_rows self.now }
    {
        match &self.bricks {
            None => 0,
            Some(cube) => cube.rows(),
        }
    }

    /// How many bricks there are.
    pub fn bricks(&self) -> usize
        ensures { result ≡ slot_bricks self.now }
    {
        match &self.bricks {
            None => 0,
            Some(cube) => cube.bricks(),
        }
    }

    /// There may be bricks of a cube of this shape. Where memory is wanted nothing changes.
    pub fn make(&mut self, alloc: Global, shape: &CubeShape) -> Result<(), AllocError>
        requires sound { IsSoundCube shape.now }
        requires shape { HasShape shape.now self.old }
        ensures same { HasSameSlot self.old self.new }
        ensures shape { HasShape shape.now self.new }
        ensures there { OnOk result (IsSome self.new) }
    {
        if self.bricks.is_some() {
            return Ok(());
        }
        let made = CubeBricks::new(alloc, shape)?;
        self.bricks = Some(made);
        Ok(())
    }

    /// Appends rows of the cube as rows of an epoch. Where memory is wanted, no brick has other rows or marks
    /// than before.
    pub fn append(
        &mut self,
        alloc: Global,
        shape: &CubeShape,
        epoch: u64,
        batch: &CodedRows,
    ) -> Result<(), AllocError>
        requires sound { IsSoundCube shape.now }
        requires shape { HasShape shape.now self.old }
        requires rows { All (IsRowOfCube shape.now) batch.now.rows }
        requires few { slot_rows self.old + length batch.now.rows < 2 ^ 63 }
        ensures appended { OnOk result ((number : ℕ) → slot_brick self.new number
            ≡ content_with_rows epoch
            (rows_of_brick shape.now.shape.sizes number batch.now.rows)
            (slot_brick self.old number)) }
        ensures count { OnOk result
            (slot_rows self.new ≡ slot_rows self.old + length batch.now.rows) }
        ensures waits { slot_waits self.new ≡ slot_waits self.old }
        ensures err { OnErr result (HasSameSlot self.old self.new) }
        ensures shape { HasShape shape.now self.new }
    {
        self.make(alloc, shape)?;
        match &mut self.bricks {
            None => Ok(()),
            Some(cube) => cube.append(epoch, batch),
        }
    }

    /// An epoch deletes the rows in a box that cuts no brick, and waits for the bricks that are not there.
    /// Where memory is wanted no brick has other rows or marks than before.
    pub fn drop_box(
        &mut self,
        alloc: Global,
        shape: &CubeShape,
        epoch: u64,
        span: &Span,
    ) -> Result<(), AllocError>
        requires sound { IsSoundCube shape.now }
        requires shape { HasShape shape.now self.old }
        requires parts { All IsSoundPart span.now.parts }
        requires whole { CutNoBrick shape.now.shape.sizes span.now.parts }
        ensures deleted { OnOk result ((number : ℕ) → slot_brick self.new number
            ≡ (if has_brick shape.now.shape.sizes span.now number
            then content_with_mark epoch (slot_brick self.old number)
            else slot_brick self.old number)) }
        ensures waits { OnOk result (slot_waits self.new
            ≡ slot_waits self.old ++ record { epoch = epoch; span = span.now } ∷ []) }
        ensures count { slot_rows self.new ≡ slot_rows self.old }
        ensures err { OnErr result (HasSameSlot self.old self.new) }
        ensures shape { HasShape shape.now self.new }
    {
        self.make(alloc, shape)?;
        match &mut self.bricks {
            None => Ok(()),
            Some(cube) => cube.drop_box(epoch, span),
        }
    }

    /// Takes an epoch out: its rows, its marks, and its deletions that wait. It takes no memory.
    pub fn rollback(&mut self, epoch: u64)
        ensures { IsSlotAfter (content_without epoch) (is_of_other epoch) self.old self.new }
    {
        match &mut self.bricks {
            None => {}
            Some(cube) => cube.rollback(epoch),
        }
    }

    /// Removes the rows that a mark at or below an epoch hides, whoever looks, these marks, and the
    /// deletions at or below it that wait. It takes no memory.
    pub fn purge(&mut self, epoch: u64)
        ensures { IsSlotAfter (content_purged epoch) (is_above epoch) self.old self.new }
    {
        match &mut self.bricks {
            None => {}
            Some(cube) => cube.purge(epoch),
        }
    }

    /// The rows that the snapshot sees and the query's span has. It is an error where memory is wanted.
    pub fn scan(
        &self,
        alloc: Global,
        shape: &CubeShape,
        query: &BoundQuery,
        snapshot: &Snapshot,
    ) -> Result<Partial, AllocError>
        requires shape { HasShape shape.now self.now }
        requires sound { IsSoundQuery query.now
            (length shape.now.shape.sizes) shape.now.metrics }
        requires parts { All IsSoundPart query.now.span.parts }
        requires few { slot_rows self.now < 2 ^ 63 }
        ensures { IfOk result (λ found. AreGroupsOf query.now shape.now.shape.sizes
            (slot_rows self.now)
            (λ number. brick_rows_shown query.now.span snapshot.now (slot_brick self.now number))
            found.groups) }
    {
        let mut found = Partial::new(alloc);
        match &self.bricks {
            None => Ok(found),
            Some(cube) => {
                let mut scratch = Scratch::new(alloc)?;
                cube.scan(query, snapshot, &mut scratch, &mut found)?;
                Ok(found)
            }
        }
    }

    /// The rows of the query's span that came from one snapshot to another, and those that went. It is an
    /// error where memory is wanted.
    pub fn delta(
        &self,
        alloc: Global,
        shape: &CubeShape,
        query: &BoundQuery,
        from: &Snapshot,
        to: &Snapshot,
    ) -> Result<Change, AllocError>
        requires shape { HasShape shape.now self.now }
        requires sound { IsSoundQuery query.now
            (length shape.now.shape.sizes) shape.now.metrics }
        requires parts { All IsSoundPart query.now.span.parts }
        requires few { slot_rows self.now < 2 ^ 63 }
        ensures came { IfOk result (λ change. AreGroupsOf query.now shape.now.shape.sizes
            (slot_rows self.now)
            (λ number. brick_rows_apart query.now.span to.now from.now (slot_brick self.now number))
            change.came.groups) }
        ensures went { IfOk result (λ change. AreGroupsOf query.now shape.now.shape.sizes
            (slot_rows self.now)
            (λ number. brick_rows_apart query.now.span from.now to.now (slot_brick self.now number))
            change.went.groups) }
    {
        let mut came = Partial::new(alloc);
        let mut went = Partial::new(alloc);
        match &self.bricks {
            None => Ok(Change { came, went }),
            Some(cube) => {
                let mut scratch = Scratch::new(alloc)?;
                cube.delta(query, from, to, &mut scratch, &mut came, &mut went)?;
                Ok(Change { came, went })
            }
        }
    }

    /// What a round from one epoch up to another has of each brick with entries of it, by rising number. It
    /// is an error where memory is wanted.
    pub fn copy(&self, alloc: Global, from: u64, to: u64) -> Result<RoundBrickList, AllocError>
        ensures { IfOk result (IsSlotCopy from to self.now) }
    {
        match &self.bricks {
            None => Ok(RoundBrickList::from_vec(Vec::new(alloc))),
            Some(cube) => cube.copy(from, to),
        }
    }
}
