//! A shard scanned for an answer.

ghost use Rattle.std.specs.Prelude.{◌≡◌, ◌*◌, ◌<◌, ◌≤◌, IfOk};
ghost use Rattle.measured_rows.specs.Scanned.{sums_and_counts};
ghost use Rattle.shard_cell.specs.Shards.{shard_rows};
ghost use Rattle.measured_shards.specs.Scanned.{IsScannedSum};

use crate::batches::{BRICKS, MILLION, batches_of, sorted_batch};
use crate::filled::FilledShard;
use cube_values::{BoundItem, BoundItems, BoundQuery, Coords, NameLists, Part, Parts, Span};
use measured_rows::table_sum;
use std::alloc::{AllocError, Global};
use timed_work::Work;

/// The rows of a brick, where bricks and not rows are counted.
const FEW: u32 = 4;

/// A sum and a count for each coordinate of the first dimension.
fn sums_and_counts(alloc: Global) -> Result<BoundQuery, AllocError>
    ensures { IfOk result (λ query. query ≡ sums_and_counts) }
{
    Ok(BoundQuery {
        cube: 0,
        span: Span {
            parts: Parts::from_vec(vec![in alloc; Part::All, Part::All]?),
        },
        group: Coords::from_vec(vec![in alloc; 0]?),
        items: BoundItems::from_vec(vec![in alloc;
            BoundItem::Group(0),
            BoundItem::Sum(0),
            BoundItem::Count,
        ]?),
    })
}

/// The sum of the whole numbers in the answer over all rows.
fn scanned_sum(alloc: Global, filled: &FilledShard, query: &BoundQuery) -> Result<u64, AllocError>
    requires { query.now ≡ sums_and_counts }
    ensures { IfOk result (IsScannedSum filled.now) }
{
    let found = filled.scan(query)?;
    let table = found.finish(query, &NameLists::new(alloc))?;
    Ok(table_sum(table.as_slice()))
}

/// A shard of so many rows in 96 bricks, in batches.
fn with_rows(alloc: Global, items: u32) -> Result<FilledShard, AllocError>
    ensures { IfOk result (λ filled. shard_rows filled.shard ≡ items) }
{
    let mut filled = FilledShard::new(alloc, BRICKS)?;
    filled.append_all(&batches_of(alloc, items)?)?;
    Ok(filled)
}

/// A shard of so many bricks, of a few rows each.
fn with_bricks(alloc: Global, bricks: u32) -> Result<FilledShard, AllocError>
    requires some { 0 < bricks }
    requires few { bricks ≤ MILLION }
    ensures { IfOk result (λ filled. shard_rows filled.shard ≡ bricks * FEW) }
{
    let batch = sorted_batch(alloc, bricks, bricks * FEW)?;
    let mut filled = FilledShard::new(alloc, bricks)?;
    filled.append(1, &batch)?;
    Ok(filled)
}

/// A shard with rows in 96 bricks, and a query for a sum and a count by eight coordinates.
#[derive(Drop)]
pub struct ShardScan {
    filled: FilledShard,
    query: BoundQuery,
    ghost query_is: { query ≡ sums_and_counts },
}

impl Work for ShardScan {
    fn prepared(alloc: Global, items: u32) -> Result<ShardScan, AllocError> {
        Ok(ShardScan {
            filled: with_rows(alloc, items)?,
            query: sums_and_counts(alloc)?,
        })
    }

    /// The checksum is the sum of the whole numbers in the answer.
    fn work(&mut self, alloc: Global) -> Result<u64, AllocError>
        ensures { IfOk result (IsScannedSum self.old.filled) }
    {
        scanned_sum(alloc, &self.filled, &self.query)
    }
}

/// A shard with a few rows in each of many bricks, and the same query.
#[derive(Drop)]
pub struct ShardBricks {
    filled: FilledShard,
    query: BoundQuery,
    ghost query_is: { query ≡ sums_and_counts },
}

impl Work for ShardBricks {
    /// So many bricks, and at least one and at most a million.
    fn prepared(alloc: Global, items: u32) -> Result<ShardBricks, AllocError> {
        Ok(ShardBricks {
            filled: with_bricks(alloc, items.max(1).min(MILLION))?,
            query: sums_and_counts(alloc)?,
        })
    }

    /// The checksum is the sum of the whole numbers in the answer.
    fn work(&mut self, alloc: Global) -> Result<u64, AllocError>
        ensures { IfOk result (IsScannedSum self.old.filled) }
    {
        scanned_sum(alloc, &self.filled, &self.query)
    }
}
