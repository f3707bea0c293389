//! The birth of a brick, and the room that a batch needs.

ghost use Rattle.std.specs.Prelude.{◌≡◌, ◌≢◌, ℕ, ◌<◌, ◌≤◌, None, All, IfOk, OnOk};
ghost use Rattle.cube_values.specs.Shapes.{IsSoundCube, bricks_of};
ghost use Rattle.brick_map.specs.Batches.{AreRuns};
ghost use Rattle.brick_map.specs.Births.{content_of_brick, newborn};
ghost use Rattle.brick_map.specs.Lists.{IsBrickOf, home_of, spare_entries_at, spare_rows_at};
ghost use Rattle.brick_map.specs.Places.{brick_place};
ghost use Rattle.brick_map.specs.Waiting.{IsReadied, IsReadyFor, IsWaiting};

use crate::deletion::Deletion;
use crate::list::BrickList;
use crate::marks::delete_from;
use crate::runs::{BatchRun, do_rise, room_for};
use brick_store::Brick;
use cube_values::{CodedRows, CubeShape};
use std::alloc::{AllocError, Global};

/// A newborn brick, with the marks of the deletions that wait for it.
pub fn newborn(
    alloc: Global,
    shape: &CubeShape,
    recent: &[Deletion],
    number: u64,
) -> Result<Brick, AllocError>
    requires shape { IsSoundCube shape.now }
    requires number { number < bricks_of shape.now.shape.sizes }
    requires recent { All (IsWaiting shape.now.shape.sizes) recent.now }
    ensures home { IfOk result (λ b. b.home ≡ home_of shape.now number) }
    ensures content { IfOk result
        (λ b. content_of_brick b ≡ newborn shape.now.shape.sizes recent.now number) }
{
    let mut brick = Brick::new(alloc, &shape.shape, shape.metrics, number)?;
    brick.prepare(0, recent.len() as u64)?;
    'deletions: for deletion in recent {
        delete_from(&mut brick, &shape.shape, &deletion.span, deletion.epoch);
    }
    Ok(brick)
}

/// The brick of a number is there: it is born where it was not. Where memory is wanted nothing changes.
pub fn give_birth(
    list: &mut BrickList,
    alloc: Global,
    shape: &CubeShape,
    recent: &[Deletion],
    number: u64,
) -> Result<(), AllocError>
    requires shape { IsSoundCube shape.now }
    requires number { number < bricks_of shape.now.shape.sizes }
    requires recent { All (IsWaiting shape.now.shape.sizes) recent.now }
    requires bricks { All (IsBrickOf shape.now) list.old }
    ensures readied { IsReadied shape.now recent.now list.old list.new }
    ensures there { OnOk result (brick_place number list.new ≢ None) }
{
    match list.find(number) {
        Some(_) => Ok(()),
        None => {
            let brick = newborn(alloc, shape, recent, number)?;
            list.add(number, brick)?;
            Ok(())
        }
    }
}

/// Room in the brick of a number for so many more rows and entries. It is born where it was not there.
/// Where memory is wanted, it may be born.
pub fn prepare_brick(
    list: &mut BrickList,
    alloc: Global,
    shape: &CubeShape,
    recent: &[Deletion],
    number: u64,
    rows: u64,
    entries: u64,
) -> Result<(), AllocError>
    requires shape { IsSoundCube shape.now }
    requires number { number < bricks_of shape.now.shape.sizes }
    requires recent { All (IsWaiting shape.now.shape.sizes) recent.now }
    requires bricks { All (IsBrickOf shape.now) list.old }
    ensures readied { IsReadied shape.now recent.now list.old list.new }
    ensures rows { OnOk result (rows ≤ spare_rows_at number list.new) }
    ensures entries { OnOk result (entries ≤ spare_entries_at number list.new) }
{
    give_birth(list, alloc, shape, recent, number)?;
    list.prepare(number, rows, entries)?;
    Ok(())
}

/// Room in each brick of a batch for its rows there. Where memory is wanted, some of the bricks may have
/// the room and some be born.
pub fn prepare_runs(
    list: &mut BrickList,
    alloc: Global,
    shape: &CubeShape,
    recent: &[Deletion],
    runs: &[BatchRun],
    batch: &CodedRows,
) -> Result<(), AllocError>
    requires shape { IsSoundCube shape.now }
    requires runs { AreRuns shape.now.shape.sizes batch.now.rows 0 runs.now }
    requires recent { All (IsWaiting shape.now.shape.sizes) recent.now }
    requires bricks { All (IsBrickOf shape.now) list.old }
    ensures readied { IsReadied shape.now recent.now list.old list.new }
    ensures room { OnOk result ((number : ℕ) → IsReadyFor runs.now list.new number) }
{
    let apart = do_rise(runs);
    'runs: for i in 0..runs.len() {
        let room = room_for(runs, i, batch.len(), apart);
        prepare_brick(
            list,
            alloc,
            shape,
            recent,
            runs[i].number,
            room.rows,
            room.entries,
        )?;
    }
    Ok(())
}
