//! Passes over the cubes of a shard.

ghost use Rattle.std.specs.Prelude.{◌≡◌, ◌-◌, ◌^◌, ◌<◌, replicate, None, IfOk, min, sum_by};
ghost use Rattle.std.specs.List.{AllZip};
ghost use Rattle.brick_map.specs.Births.{content_purged, content_without};
ghost use Rattle.brick_map.specs.Waiting.{is_above, is_of_other};
ghost use Rattle.shard_cell.specs.Slots.{IsSlotAfter, IsSlotCopy, slot_bricks, slot_rows};

use crate::slot::CubeSlot;
use cube_rounds::RoundBrickList;
use std::alloc::{AllocError, Global};

/// Takes an epoch out of each cube. It takes no memory.
pub fn rollback_each(cubes: &mut [CubeSlot], epoch: u64)
    ensures { AllZip (IsSlotAfter (content_without epoch) (is_of_other epoch)) cubes.old cubes.new }
{
    for cube in cubes.iter_mut() {
        cube.rollback(epoch);
    }
}

/// Takes out of each cube what no snapshot needs. It takes no memory.
pub fn purge_each(cubes: &mut [CubeSlot], epoch: u64)
    ensures { AllZip (IsSlotAfter (content_purged epoch) (is_above epoch)) cubes.old cubes.new }
{
    for cube in cubes.iter_mut() {
        cube.purge(epoch);
    }
}

/// How many rows cubes have.
pub fn count_rows(cubes: &[CubeSlot]) -> u64
    requires { sum_by slot_rows cubes.now < 2 ^ 64 }
    ensures { result ≡ sum_by slot_rows cubes.now }
{
    let mut rows = 0;
    for cube in cubes {
        rows += cube.rows();
    }
    rows
}

/// So many cubes of which nothing came.
pub fn empty_cubes(alloc: Global, cubes: usize) -> Result<Vec<CubeSlot>, AllocError>
    ensures { IfOk result (λ made. made.items ≡ replicate cubes None) }
{
    let mut made = Vec::new(alloc);
    'cubes: for _i in 0..cubes {
        made.push(CubeSlot::new())?;
    }
    Ok(made)
}

/// How many bricks cubes have, at most as many as can be counted.
pub fn count_bricks(cubes: &[CubeSlot]) -> usize
    ensures { result ≡ min (sum_by slot_bricks cubes.now) (2 ^ 64 - 1) }
{
    let mut bricks: usize = 0;
    for cube in cubes {
        bricks = bricks.saturating_add(cube.bricks());
    }
    bricks
}

/// What a round from one epoch up to another has of each cube.
pub fn copy_each(
    alloc: Global,
    cubes: &[CubeSlot],
    from: u64,
    to: u64,
) -> Result<Vec<RoundBrickList>, AllocError>
    ensures { IfOk result (λ copied. AllZip (IsSlotCopy from to) cubes.now copied.items) }
{
    let mut copied = Vec::new(alloc);
    for cube in cubes {
        copied.push(cube.copy(alloc, from, to)?)?;
    }
    Ok(copied)
}
