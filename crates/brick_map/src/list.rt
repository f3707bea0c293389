//! Bricks in a list, and a map from their numbers to their places.

ghost use Rattle.std.specs.Prelude.{◌≡◌, ◌++◌, ◌∷◌, [], ◌-◌, ◌+◌, ◌<◌, ◌≤◌, ℕ, length, map, slice_get, All, nat_eq, None, IfOk, OnOk, OnErr, IsSomeAnd};
ghost use Rattle.std.specs.List.{IsDistinct, AllZip};
ghost use Rattle.cube_values.specs.Shapes.{IsSoundShape, bricks_of};
ghost use Rattle.cube_values.specs.Spans.{IsSoundPart};
ghost use Rattle.condition_spans.specs.Spans.{CutNoBrick};
ghost use Rattle.cube_values.specs.Batches.{rows_between};
ghost use Rattle.brick_store.specs.Bricks.{IsRowOf};
ghost use Rattle.cube_rounds.specs.Demands.{AreRising};
ghost use Rattle.brick_map.specs.Births.{brick_numbered};
ghost use Rattle.brick_map.specs.Copied.{part_numbered, parts_at};
ghost use Rattle.brick_map.specs.Lists.{HasNumberBelow, HasSame, MayMark, TakesRows, bricks_with, brick_after_deletion, brick_purged, brick_with_room, brick_with_rows, brick_without};
ghost use Rattle.brick_map.specs.Places.{brick_place, numbers_of_bricks};

use crate::copies::copy_by_number;
use crate::passes::{delete_from_each, prepare_deletions, purge_each, rollback_each};
use brick_store::Brick;
use cube_rounds::RoundBrick;
use cube_values::{CodedRows, Shape, Span};
use std::alloc::{AllocError, Global};
use std::collections::BTreeMap;
use std::marker::Model;

/// Bricks of different numbers, in the order in which they were added. Contracts see the list.
#[derive(Drop)]
pub struct BrickList {
    bricks: Vec<Brick>,
    places: BTreeMap<u64, usize>,
}

impl Model for BrickList {
    ghost use Rattle.std.specs.Prelude.{List};
    ghost use Rattle.brick_store.specs.Bricks.{BrickState};
    ghost use Rattle.brick_map.specs.Places.{ArePlaced};

    ghost Value = { List BrickState };

    ghost view = { λ l. l.bricks.items };

    ghost invariant = { ArePlaced };
}

impl BrickList {
    /// No bricks. It takes no memory.
    pub fn new(alloc: Global) -> BrickList
        ensures { result ≡ [] }
    {
        BrickList {
            bricks: Vec::new(alloc),
            places: BTreeMap::new(alloc),
        }
    }

    /// The bricks.
    pub fn as_slice(&self) -> &[Brick]
        ensures items { result.now ≡ self.now }
        ensures distinct { IsDistinct nat_eq (numbers_of_bricks self.now) }
    {
        self.bricks.as_slice()
    }

    /// Where the brick of a number stands; None where it is not there.
    pub fn find(&self, number: u64) -> Option<usize>
        ensures { result ≡ brick_place number self.now }
    {
        self.places.get(&number).copied()
    }

    /// Adds a brick of a number of which there is none. Where memory is wanted nothing changes.
    pub fn add(&mut self, number: u64, brick: Brick) -> Result<(), AllocError>
        requires number { brick.home.number ≡ number }
        requires new { brick_place number self.old ≡ None }
        ensures ok { OnOk result (self.new ≡ self.old ++ brick ∷ []) }
        ensures err { OnErr result (self.new ≡ self.old) }
    {
        self.bricks.reserve(1)?;
        self.places.insert(number, self.bricks.len())?;
        self.bricks.push_reserved(brick);
        Ok(())
    }

    /// Makes room in the brick of a number for so many more rows and entries at least. Where memory is
    /// wanted nothing changes.
    pub fn prepare(&mut self, number: u64, rows: u64, entries: u64) -> Result<(), AllocError>
        ensures ok { OnOk result
            (self.new ≡ bricks_with number (brick_with_room rows entries) self.old) }
        ensures err { OnErr result (self.new ≡ self.old) }
    {
        match self.find(number) {
            None => Ok(()),
            Some(place) => {
                let brick = &mut self.bricks[place];
                brick.prepare(rows, entries)?;
                Ok(())
            }
        }
    }

    /// Appends the rows of a batch from one place up to another to the brick of a number, which takes
    /// them. It takes no memory.
    pub fn append(&mut self, number: u64, epoch: u64, batch: &CodedRows, from: usize, to: usize)
        requires some { from < to }
        requires within { to ≤ length batch.now.rows }
        requires takes { IsSomeAnd (brick_numbered number self.old)
            (TakesRows (rows_between from to batch.now.rows)) }
        ensures { self.new ≡ bricks_with number
            (brick_with_rows epoch (rows_between from to batch.now.rows)) self.old }
    {
        match self.find(number) {
            None => {}
            Some(place) => {
                let brick = &mut self.bricks[place];
                brick.append(epoch, batch, from, to);
            }
        }
    }

    /// Makes room for a mark in each brick that a box has. Where memory is wanted, some of them may have
    /// it.
    pub fn prepare_deletions(&mut self, shape: &Shape, span: &Span) -> Result<(), AllocError>
        requires shape { IsSoundShape shape.now }
        requires parts { All IsSoundPart span.now.parts }
        requires whole { CutNoBrick shape.now.sizes span.now.parts }
        requires bricks { All (HasNumberBelow (bricks_of shape.now.sizes)) self.old }
        ensures same { AllZip HasSame self.old self.new }
        ensures room { OnOk result (All (MayMark shape.now.sizes span.now) self.new) }
    {
        prepare_deletions(self.bricks.as_mut_slice(), shape, span)
    }

    /// An epoch deletes the rows of each brick that its box has. It takes no memory.
    pub fn delete(&mut self, shape: &Shape, span: &Span, epoch: u64)
        requires shape { IsSoundShape shape.now }
        requires parts { All IsSoundPart span.now.parts }
        requires whole { CutNoBrick shape.now.sizes span.now.parts }
        requires bricks { All (HasNumberBelow (bricks_of shape.now.sizes)) self.old }
        requires room { All (MayMark shape.now.sizes span.now) self.old }
        ensures { self.new ≡ map (brick_after_deletion shape.now.sizes span.now epoch) self.old }
    {
        delete_from_each(self.bricks.as_mut_slice(), shape, span, epoch);
    }

    /// Takes an epoch out of each brick. It takes no memory.
    pub fn rollback(&mut self, epoch: u64)
        ensures { self.new ≡ map (brick_without epoch) self.old }
    {
        rollback_each(self.bricks.as_mut_slice(), epoch);
    }

    /// Takes out of each brick what no snapshot needs. It takes no memory.
    pub fn purge(&mut self, epoch: u64)
        ensures { self.new ≡ map (brick_purged epoch) self.old }
    {
        purge_each(self.bricks.as_mut_slice(), epoch);
    }

    /// What a round from one epoch up to another has of each brick with entries of it, by rising number.
    pub fn copy(&self, from: u64, to: u64) -> Result<Vec<RoundBrick>, AllocError>
        ensures rising { IfOk result (λ parts. AreRising 0 parts.items) }
        ensures parts { IfOk result (λ parts. (number : ℕ)
            → part_numbered number parts.items ≡ slice_get (parts_at from to self.now number) 0) }
    {
        let alloc = *self.bricks.allocator();
        copy_by_number(alloc, self.bricks.as_slice(), &self.places, from, to)
    }
}
