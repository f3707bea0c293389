//! The rows of parts, put into a batch.

ghost use Rattle.std.specs.Prelude.{◌≡◌, ◌-◌, ◌+◌, ◌≤◌, ◌++◌, length, OnOk};
ghost use Rattle.std.specs.List.{flat_map, AllByRecursion};
ghost use Rattle.cube_values.specs.Batches.{HasWidths, rows_between};
ghost use Rattle.kept_batches.specs.RoundsFit.{parts_of_cube, parts_of_rounds};
ghost use Rattle.kept_batches.specs.Unhidden.{HaveWidths, rows_for_bricks, rows_of_run, unhidden_rows};

use crate::brick_set::BrickSet;
use crate::limits::limit_in;
use cube_rounds::{Round, RoundBrick};
use cube_values::{CodedRows, Entry, Snapshot, grown_room};
use epochs_vector::Limit;
use std::alloc::AllocError;
use std::collections::BTreeMap;

/// What a round has of the bricks of the cube at a place.
pub fn parts_of_cube(round: &Round, place: usize) -> &[RoundBrick]
    ensures { result.now ≡ parts_of_cube place round.now }
{
    match round.cubes.as_slice().get(place) {
        None => &[],
        Some(cube) => cube.bricks.as_slice(),
    }
}

/// How many rows rounds have of the bricks, hidden ones among them, so that a batch seldom grows.
pub fn room_for(rounds: &[Round], bricks: &BrickSet) -> usize
    requires { 1 ≤ bricks.now.shards }
{
    let mut room = 0usize;
    for round in rounds {
        for part in parts_of_cube(round, bricks.place) {
            if bricks.has(part.brick()) {
                room = room.saturating_add(part.rows().len());
            }
        }
    }
    room
}

// Puts rows from one place up to another at the end of a batch that has room for them.
fn copy_rows(batch: &mut CodedRows, rows: &CodedRows, from: usize, to: usize)
    requires order { from ≤ to }
    requires within { to ≤ length rows.now.rows }
    requires room { length batch.old.rows + (to - from) ≤ batch.old.room }
    requires widths { AllByRecursion (HasWidths batch.old.dims batch.old.width) rows.now.rows }
    ensures { batch.new ≡ record batch.old
        { rows = batch.old.rows ++ rows_between from to rows.now.rows } }
{
    'rows: for i in from..to {
        batch.push(rows.coords_of(i), rows.metrics_of(i));
    }
}

// Puts rows from one place up to another at the end of a batch.
fn put_rows(
    batch: &mut CodedRows,
    rows: &CodedRows,
    from: usize,
    to: usize,
) -> Result<(), AllocError>
    requires order { from ≤ to }
    requires within { to ≤ length rows.now.rows }
    requires widths { AllByRecursion (HasWidths batch.old.dims batch.old.width) rows.now.rows }
    ensures rows { OnOk result
        (batch.new.rows ≡ batch.old.rows ++ rows_between from to rows.now.rows) }
    ensures dims { batch.new.dims ≡ batch.old.dims }
    ensures width { batch.new.width ≡ batch.old.width }
{
    let least = batch.len().checked_add(to - from).ok_or(AllocError)?;
    let room = grown_room(batch.room() as u64, least as u64);
    batch.reserve(room as usize)?;
    copy_rows(batch, rows, from, to);
    Ok(())
}

// Puts the rows of a run that the snapshot sees and that are not below the limit.
fn put_run(
    batch: &mut CodedRows,
    rows: &CodedRows,
    limit: &Limit,
    epoch: u64,
    from: u64,
    end: u64,
    snapshot: &Snapshot,
) -> Result<(), AllocError>
    requires order { from ≤ end }
    requires within { end ≤ length rows.now.rows }
    requires widths { AllByRecursion (HasWidths batch.old.dims batch.old.width) rows.now.rows }
    ensures rows { OnOk result (batch.new.rows ≡ batch.old.rows
        ++ rows_of_run snapshot.now limit.now epoch from end rows.now.rows) }
    ensures dims { batch.new.dims ≡ batch.old.dims }
    ensures width { batch.new.width ≡ batch.old.width }
{
    if snapshot.sees(epoch) {
        let first = limit.first_shown(epoch, from, end);
        put_rows(batch, rows, first as usize, end as usize)?;
    }
    Ok(())
}

// Puts the rows of a part that the snapshot sees and that are not below the limit.
fn put_part(
    batch: &mut CodedRows,
    part: &RoundBrick,
    limit: &Limit,
    snapshot: &Snapshot,
) -> Result<(), AllocError>
    requires { AllByRecursion (HasWidths batch.old.dims batch.old.width) part.now.rows }
    ensures rows { OnOk result
        (batch.new.rows ≡ batch.old.rows ++ unhidden_rows snapshot.now limit.now part.now) }
    ensures dims { batch.new.dims ≡ batch.old.dims }
    ensures width { batch.new.width ≡ batch.old.width }
{
    let rows = part.rows();
    let mut from = 0;
    let mut left = part.entries();
    'entries: while let [entry, rest @ ..] = left {
        if let Entry::Run { epoch, end } = *entry {
            put_run(batch, rows, limit, epoch, from, end, snapshot)?;
            from = end;
        }
        left = rest;
    }
    Ok(())
}

// Puts those rows of a part, where its brick is one of the set.
fn put_own(
    batch: &mut CodedRows,
    part: &RoundBrick,
    bricks: &BrickSet,
    limits: &BTreeMap<u64, Limit>,
    snapshot: &Snapshot,
) -> Result<(), AllocError>
    requires some { 1 ≤ bricks.now.shards }
    requires widths { AllByRecursion (HasWidths batch.old.dims batch.old.width) part.now.rows }
    ensures rows { OnOk result (batch.new.rows
        ≡ batch.old.rows ++ rows_for_bricks snapshot.now bricks.now limits.now part.now) }
    ensures dims { batch.new.dims ≡ batch.old.dims }
    ensures width { batch.new.width ≡ batch.old.width }
{
    if bricks.has(part.brick()) {
        let limit = limit_in(limits, part.brick());
        put_part(batch, part, &limit, snapshot)?;
    }
    Ok(())
}

// Puts those rows of parts.
fn put_parts(
    batch: &mut CodedRows,
    parts: &[RoundBrick],
    bricks: &BrickSet,
    limits: &BTreeMap<u64, Limit>,
    snapshot: &Snapshot,
) -> Result<(), AllocError>
    requires some { 1 ≤ bricks.now.shards }
    requires widths { HaveWidths batch.old.dims batch.old.width parts.now }
    ensures rows { OnOk result (batch.new.rows ≡ batch.old.rows
        ++ flat_map (rows_for_bricks snapshot.now bricks.now limits.now) parts.now) }
    ensures dims { batch.new.dims ≡ batch.old.dims }
    ensures width { batch.new.width ≡ batch.old.width }
{
    'parts: for part in parts {
        put_own(batch, part, bricks, limits, snapshot)?;
    }
    Ok(())
}

/// Puts the rows that rounds have of the bricks, but for those that are below the limit of their
/// brick and those that the snapshot does not see.
pub fn put_rounds(
    batch: &mut CodedRows,
    rounds: &[Round],
    bricks: &BrickSet,
    limits: &BTreeMap<u64, Limit>,
    snapshot: &Snapshot,
) -> Result<(), AllocError>
    requires some { 1 ≤ bricks.now.shards }
    requires widths { HaveWidths batch.old.dims batch.old.width
        (parts_of_rounds bricks.now.place rounds.now) }
    ensures rows { OnOk result (batch.new.rows ≡ batch.old.rows
        ++ flat_map (rows_for_bricks snapshot.now bricks.now limits.now)
        (parts_of_rounds bricks.now.place rounds.now)) }
    ensures dims { batch.new.dims ≡ batch.old.dims }
    ensures width { batch.new.width ≡ batch.old.width }
{
    'rounds: for round in rounds {
        let parts = parts_of_cube(round, bricks.place);
        put_parts(batch, parts, bricks, limits, snapshot)?;
    }
    Ok(())
}
