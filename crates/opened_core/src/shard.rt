//! A shard that opens with the kept rows of its bricks.
ghost use Rattle.std.specs.Prelude.{◌≡◌, ◌<◌, ◌≤◌, ◌^◌, length, IfOk, OnOk};
ghost use Rattle.cube_values.specs.Faults.{IfFault};
ghost use Rattle.kept_data.specs.KeptFiles.{IsKeptByFile};
ghost use Rattle.opened_core.specs.KeptShards.{HoldsKept, IsErrorOfShard, IsTooFull, kept_count};

use crate::full::FullShard;
use cube_values::CallError;
use kept_batches::{kept_batch, stored_rounds_fit_each_cube};
use kept_data::{kept_data_are_sound, kept_rounds_lie_in_their_cubes};
use linked_shards::CoreShard;
use shard_cell::{Shard, ShardFull};
use std::alloc::Global;
use store_reading::Kept;

/// How many rows a shard takes.
pub const MOST_ROWS: u64 = 1 << 40;

// The refusal of a shard, with its number.
fn error_of_shard(number: u32, error: CallError<ShardFull>) -> CallError<FullShard>
    ensures { IsErrorOfShard number error result }
{
    match error {
        CallError::Fault(full) => CallError::Fault(FullShard {
            shard: number,
            rows: full.rows,
        }),
        CallError::NoMemory => CallError::NoMemory,
    }
}

/// The shard of a number, with the kept rows of its bricks: those of a cube are one batch.
pub fn open_shard(
    alloc: Global,
    kept: &Kept,
    shards: u32,
    number: u32,
) -> Result<CoreShard, CallError<FullShard>>
    requires kept { IsKeptByFile kept.now }
    requires there { number < shards }
    ensures holds { IfOk result (λ shard. HoldsKept kept.now shards number shard.shard) }
    ensures takes { OnOk result
        (kept_count kept.now shards number (length kept.now.cubes) ≤ 2 ^ 40) }
    ensures full { IfFault result (IsTooFull kept.now shards) }
    ensures own { IfFault result (λ full. full.shard ≡ number) }
{
    kept_data_are_sound();
    kept_rounds_lie_in_their_cubes();
    stored_rounds_fit_each_cube();
    let mut shard = Shard::new(alloc, MOST_ROWS)?;
    'cubes: for (place, cube) in kept.cubes.as_slice().iter().enumerate() {
        let shape = cube.cube_shape();
        let rounds = kept.rounds.as_slice();
        let batch = kept_batch(
            alloc,
            rounds,
            place as u32,
            shape,
            kept.epoch,
            shards as u64,
            number as u64,
        )?;
        match shard.append(place as u32, shape, kept.epoch, &batch) {
            Ok(()) => {}
            Err(error) => return Err(error_of_shard(number, error)),
        }
    }
    Ok(CoreShard { shard })
}
