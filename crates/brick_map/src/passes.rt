//! Passes over all bricks of a list.

ghost use Rattle.std.specs.Prelude.{◌≡◌, ◌^◌, ◌<◌, ◌≤◌, ◌++◌, length, map, All, OnOk, sum_by};
ghost use Rattle.std.specs.List.{AllZip};
ghost use Rattle.cube_values.specs.Queries.{IsSoundQuery};
ghost use Rattle.cube_values.specs.Shapes.{IsSoundShape, bricks_of};
ghost use Rattle.cube_values.specs.Spans.{IsSoundPart};
ghost use Rattle.agg_fold.specs.Standing.{Gains, HasRoom};
ghost use Rattle.condition_spans.specs.Spans.{CutNoBrick};
ghost use Rattle.brick_map.specs.Births.{rows_count, rows_found, rows_found_apart};
ghost use Rattle.brick_map.specs.Lists.{HasNumberBelow, HasSame, MayMark, IsAsked, OwnsRows, brick_after_deletion, brick_purged, brick_without};

use crate::marks::{delete_from, prepare_deletion};
use agg_fold::Partial;
use brick_store::{Brick, Scratch};
use cube_values::{BoundQuery, Shape, Snapshot, Span};
use std::alloc::AllocError;

/// Takes an epoch out of each brick. It takes no memory.
pub fn rollback_each(bricks: &mut [Brick], epoch: u64)
    ensures { bricks.new ≡ map (brick_without epoch) bricks.old }
{
    for brick in bricks.iter_mut() {
        brick.rollback(epoch);
    }
}

/// Takes out of each brick what no snapshot needs. It takes no memory.
pub fn purge_each(bricks: &mut [Brick], epoch: u64)
    ensures { bricks.new ≡ map (brick_purged epoch) bricks.old }
{
    for brick in bricks.iter_mut() {
        brick.purge(epoch);
    }
}

/// Makes room for a mark in each brick that a box has. Where memory is wanted, some of them may have it.
pub fn prepare_deletions(bricks: &mut [Brick], shape: &Shape, span: &Span) -> Result<(), AllocError>
    requires shape { IsSoundShape shape.now }
    requires parts { All IsSoundPart span.now.parts }
    requires whole { CutNoBrick shape.now.sizes span.now.parts }
    requires bricks { All (HasNumberBelow (bricks_of shape.now.sizes)) bricks.old }
    ensures same { AllZip HasSame bricks.old bricks.new }
    ensures room { OnOk result (All (MayMark shape.now.sizes span.now) bricks.new) }
{
    for brick in bricks.iter_mut() {
        prepare_deletion(brick, shape, span)?;
    }
    Ok(())
}

/// An epoch deletes the rows of each brick that its box has. It takes no memory.
pub fn delete_from_each(bricks: &mut [Brick], shape: &Shape, span: &Span, epoch: u64)
    requires shape { IsSoundShape shape.now }
    requires parts { All IsSoundPart span.now.parts }
    requires whole { CutNoBrick shape.now.sizes span.now.parts }
    requires bricks { All (HasNumberBelow (bricks_of shape.now.sizes)) bricks.old }
    requires room { All (MayMark shape.now.sizes span.now) bricks.old }
    ensures { bricks.new ≡ map (brick_after_deletion shape.now.sizes span.now epoch) bricks.old }
{
    for brick in bricks.iter_mut() {
        delete_from(brick, shape, span, epoch);
    }
}

/// How many rows bricks have.
pub fn count_rows(bricks: &[Brick]) -> u64
    requires { rows_count bricks.now < 2 ^ 64 }
    ensures { result ≡ rows_count bricks.now }
{
    let mut rows = 0;
    for brick in bricks {
        rows += brick.len();
    }
    rows
}

/// Adds to a partial the rows of each brick that the snapshot sees and the query's span has.
pub fn scan_each(
    bricks: &[Brick],
    query: &BoundQuery,
    snapshot: &Snapshot,
    scratch: &mut Scratch,
    into: &mut Partial,
) -> Result<(), AllocError>
    requires sound { All (IsAsked query.now) bricks.now }
    requires room { HasRoom query.now (rows_count bricks.now) into.old.groups }
    ensures found { OnOk result (Gains query.now
        (rows_found query.now.span snapshot.now bricks.now) into.old.groups into.new.groups) }
    ensures own { OnOk result (All OwnsRows bricks.now) }
{
    for brick in bricks {
        let _rows = brick.len();
        brick.scan(query, snapshot, scratch, into)?;
    }
    Ok(())
}

/// Adds to two partials what changes of each brick from one snapshot to another: the rows of the query's span
/// that the second alone sees, and those that the first alone sees.
pub fn compare_each(
    bricks: &[Brick],
    query: &BoundQuery,
    from: &Snapshot,
    to: &Snapshot,
    scratch: &mut Scratch,
    came: &mut Partial,
    went: &mut Partial,
) -> Result<(), AllocError>
    requires sound { All (IsAsked query.now) bricks.now }
    requires came_room { HasRoom query.now (rows_count bricks.now) came.old.groups }
    requires went_room { HasRoom query.now (rows_count bricks.now) went.old.groups }
    ensures came { OnOk result (Gains query.now
        (rows_found_apart query.now.span to.now from.now bricks.now)
        came.old.groups came.new.groups) }
    ensures went { OnOk result (Gains query.now
        (rows_found_apart query.now.span from.now to.now bricks.now)
        went.old.groups went.new.groups) }
    ensures own { OnOk result (All OwnsRows bricks.now) }
{
    for brick in bricks {
        let _rows = brick.len();
        brick.delta(query, from, to, scratch, came, went)?;
    }
    Ok(())
}
