//! The batch of a cube in a shard.

ghost use Rattle.std.specs.Prelude.{◌≡◌, ◌≤◌, IfOk};
ghost use Rattle.kept_batches.specs.KeptBatches.{IsKeptBatch, reader_at};
ghost use Rattle.kept_batches.specs.RoundsFit.{RoundsFit};

use crate::brick_set::BrickSet;
use crate::limits::hide_by_rounds;
use crate::parts::{put_rounds, room_for};
use cube_rounds::Round;
use cube_values::{CodedRows, CubeShape, EpochList, Snapshot};
use std::alloc::{AllocError, Global};
use std::collections::BTreeMap;

/// The rows that rounds keep for a reader at an epoch of the cube at a place, those of the bricks
/// of one shard: of each brick the rows of its parts in order, but for those that a mark hides.
/// It is an error where memory is wanted. The work is linear in rows and entries, with a look-up
/// for each part and mark, and no row takes memory of its own.
pub fn kept_batch(
    alloc: Global,
    rounds: &[Round],
    place: u32,
    shape: &CubeShape,
    epoch: u64,
    shards: u64,
    shard: u64,
) -> Result<CodedRows, AllocError>
    requires shards { 1 ≤ shards }
    requires rounds { RoundsFit shape.now place 0 rounds.now }
    ensures { IfOk result (IsKeptBatch shape.now place epoch rounds.now shards shard) }
{
    let bricks = BrickSet {
        place: place as usize,
        shards,
        shard,
    };
    let snapshot = reader_at(epoch);
    let mut limits = BTreeMap::new(alloc);
    hide_by_rounds(&mut limits, rounds, &bricks, &snapshot)?;
    let mut batch = CodedRows::new(alloc, shape.shape.sizes.len(), shape.metrics as usize);
    batch.reserve(room_for(rounds, &bricks))?;
    put_rounds(&mut batch, rounds, &bricks, &limits, &snapshot)?;
    Ok(batch)
}

// A reader at an epoch.
fn reader_at(epoch: u64) -> Snapshot
    ensures { result ≡ reader_at epoch }
{
    Snapshot {
        epoch,
        deps: EpochList::new(),
        own: false,
    }
}
