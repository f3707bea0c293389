//! A shard that is filled with rows of one cube of many bricks.

ghost use Rattle.std.specs.Prelude.{◌≡◌, ◌+◌, ◌*◌, ◌^◌, ◌<◌, ◌≤◌, length, All, IfOk, OnOk};
ghost use Rattle.brick_map.specs.Batches.{IsRowOfCube};
ghost use Rattle.measured_rows.specs.Scanned.{sums_and_counts};
ghost use Rattle.shard_cell.specs.Shards.{shard_rows};
ghost use Rattle.measured_shards.specs.InBatches.{AreBatchesOf, rows_in};
ghost use Rattle.measured_shards.specs.ManyBricks.{many_bricks};
ghost use Rattle.measured_shards.specs.Scanned.{AreScanned};

use crate::batches::{BRICKS, Batches, EIGHT, MILLION, THOUSAND};
use agg_fold::Partial;
use cube_values::{
    BoundQuery, CallError, CodedRows, CubeShape, EpochList, Flags, Shape, Size, Sizes, Snapshot,
};
use shard_cell::Shard;
use std::alloc::{AllocError, Global};
use std::marker::Model;

/// A shard, and the shape of the one cube whose rows it has.
#[derive(Drop)]
pub struct FilledShard {
    shard: Shard,
    shape: CubeShape,
    bricks: u32,
}

impl Model for FilledShard {
    ghost use Rattle.measured_shards.specs.ManyBricks.{CubeOnShard, IsOfManyBricks};

    ghost Value = { CubeOnShard };

    ghost view = { λ s. record { shard = s.shard; bricks = s.bricks } };

    ghost invariant = { IsOfManyBricks };
}

/// The shape of a cube of so many bricks.
fn many_bricks(alloc: Global, bricks: u32) -> Result<CubeShape, AllocError>
    requires { bricks ≤ MILLION }
    ensures { IfOk result (λ shape. shape ≡ many_bricks bricks) }
{
    let eight = Size {
        cardinality: EIGHT,
        range: EIGHT,
    };
    let thousand_each = Size {
        cardinality: bricks * THOUSAND,
        range: THOUSAND,
    };
    Ok(CubeShape {
        shape: Shape {
            sizes: Sizes::from_vec(vec![in alloc; eight, thousand_each]?),
        },
        texts: Flags::from_vec(vec![in alloc; false, false]?),
        metrics: 1,
    })
}

impl FilledShard {
    /// A shard without rows, for a cube of so many bricks.
    pub fn new(alloc: Global, bricks: u32) -> Result<FilledShard, AllocError>
        requires some { 0 < bricks }
        requires few { bricks ≤ MILLION }
        ensures bricks { IfOk result (λ filled. filled.bricks ≡ bricks) }
        ensures rows { IfOk result (λ filled. shard_rows filled.shard ≡ 0) }
        ensures limit { IfOk result (λ filled. filled.shard.limit ≡ 2 ^ 40) }
    {
        Ok(FilledShard {
            shard: Shard::new(alloc, 1 << 40)?,
            shape: many_bricks(alloc, bricks)?,
            bricks,
        })
    }

    /// How many rows there are.
    pub fn rows(&self) -> u64
        ensures { result ≡ shard_rows self.now.shard }
    {
        self.shard.rows()
    }

    /// Appends a batch as rows of an epoch. The error is want of memory.
    pub fn append(&mut self, epoch: u64, batch: &CodedRows) -> Result<(), AllocError>
        requires rows { All (IsRowOfCube (many_bricks self.old.bricks)) batch.now.rows }
        requires room { shard_rows self.old.shard + length batch.now.rows
            ≤ self.old.shard.limit }
        ensures count { OnOk result (shard_rows self.new.shard
            ≡ shard_rows self.old.shard + length batch.now.rows) }
        ensures bricks { self.new.bricks ≡ self.old.bricks }
        ensures limit { self.new.shard.limit ≡ self.old.shard.limit }
    {
        match self.shard.append(0, &self.shape, epoch, batch) {
            Ok(()) => Ok(()),
            Err(CallError::Fault(_)) => unreachable!(),
            Err(CallError::NoMemory) => Err(AllocError),
        }
    }

    /// Appends a batch so many times, each time as the rows of an epoch of its own.
    pub fn append_times(&mut self, batch: &CodedRows, times: u32) -> Result<(), AllocError>
        requires rows { All (IsRowOfCube (many_bricks self.old.bricks)) batch.now.rows }
        requires room { shard_rows self.old.shard + times * length batch.now.rows
            ≤ self.old.shard.limit }
        ensures count { OnOk result (shard_rows self.new.shard
            ≡ shard_rows self.old.shard + times * length batch.now.rows) }
        ensures bricks { self.new.bricks ≡ self.old.bricks }
        ensures limit { self.new.shard.limit ≡ self.old.shard.limit }
    {
        'times: for time in 0..times {
            self.append(u64::from(time) + 1, batch)?;
        }
        Ok(())
    }

    /// Appends rows in batches, each batch as the rows of an epoch of its own.
    pub fn append_all(&mut self, batches: &Batches) -> Result<(), AllocError>
        requires bricks { self.old.bricks ≡ BRICKS }
        requires batches { AreBatchesOf (rows_in batches.now) batches.now }
        requires room { shard_rows self.old.shard + rows_in batches.now ≤ self.old.shard.limit }
        ensures count { OnOk result
            (shard_rows self.new.shard ≡ shard_rows self.old.shard + rows_in batches.now) }
        ensures bricks { self.new.bricks ≡ self.old.bricks }
    {
        self.append_times(&batches.full, batches.times)?;
        self.append(u64::from(batches.times) + 1, &batches.rest)
    }

    /// A sum and a count for each coordinate of the first dimension, over all rows. The error is want of
    /// memory.
    pub fn scan(&self, query: &BoundQuery) -> Result<Partial, AllocError>
        requires { query.now ≡ sums_and_counts }
        ensures { IfOk result (λ found. AreScanned self.now found.groups) }
    {
        let snapshot = Snapshot {
            epoch: u64::MAX,
            deps: EpochList::new(),
            own: false,
        };
        self.shard.scan(&self.shape, query, &snapshot)
    }
}
