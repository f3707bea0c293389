//! The greatest mark of each brick.

ghost use Rattle.std.specs.Prelude.{◌≡◌, ℕ, ◌≤◌, ◌==◌, ◌&&◌, ◌||◌, ◌∷◌, [], length, OnOk};
ghost use Rattle.std.specs.List.{list_any};
ghost use Rattle.cube_values.specs.EpochsVector.{is_hidden_by};
ghost use Rattle.cube_values.specs.declared.entry.Entry.TheVariants.{Mark};
ghost use Rattle.epochs_vector.specs.Limits.{is_below};
ghost use Rattle.kept_batches.specs.RoundsFit.{parts_of_cube, parts_of_rounds};
ghost use Rattle.kept_batches.specs.Unhidden.{HideMore, limit_in};

use crate::brick_set::BrickSet;
use crate::parts::parts_of_cube;
use cube_rounds::{Round, RoundBrick};
use cube_values::{Entry, Snapshot};
use epochs_vector::Limit;
use std::alloc::AllocError;
use std::collections::BTreeMap;

/// The limit of a brick. Where there is none, no row is below it.
pub fn limit_in(limits: &BTreeMap<u64, Limit>, number: u64) -> Limit
    ensures { result ≡ limit_in limits.now number }
{
    limits
        .get(&number)
        .copied()
        .unwrap_or(Limit { epoch: 0, row: 0 })
}

// Hides what an entry hides of a brick, where it is a mark that the snapshot sees.
fn hide_by_entry(
    limits: &mut BTreeMap<u64, Limit>,
    number: u64,
    entry: Entry,
    snapshot: &Snapshot,
) -> Result<(), AllocError>
    ensures { OnOk result ((other j i : ℕ) → is_below (limit_in limits.new other) j i
        ≡ (is_below (limit_in limits.old other) j i
        || (number == other && is_hidden_by snapshot.now j i entry))) }
{
    match entry {
        Entry::Run { .. } => Ok(()),
        Entry::Mark { epoch, at } => hide_by_mark(limits, number, epoch, at, snapshot),
    }
}

// Hides what a mark hides of a brick, where the snapshot sees it.
fn hide_by_mark(
    limits: &mut BTreeMap<u64, Limit>,
    number: u64,
    epoch: u64,
    at: u64,
    snapshot: &Snapshot,
) -> Result<(), AllocError>
    ensures { OnOk result ((other j i : ℕ) → is_below (limit_in limits.new other) j i
        ≡ (is_below (limit_in limits.old other) j i
        || (number == other && is_hidden_by snapshot.now j i (Mark epoch at)))) }
{
    if snapshot.sees(epoch) {
        let limit = limit_in(limits, number).or(epoch, at);
        limits.insert(number, limit)?;
    }
    Ok(())
}

// Hides what the entries of a part hide of its brick.
fn hide_by_part(
    limits: &mut BTreeMap<u64, Limit>,
    part: &RoundBrick,
    snapshot: &Snapshot,
) -> Result<(), AllocError>
    ensures { OnOk result ((other j i : ℕ) → is_below (limit_in limits.new other) j i
        ≡ (is_below (limit_in limits.old other) j i || (part.now.brick == other
        && list_any (is_hidden_by snapshot.now j i) part.now.entries))) }
{
    let number = part.brick();
    let entries = part.entries();
    for entry in entries {
        hide_by_entry(limits, number, *entry, snapshot)?;
    }
    Ok(())
}

// Hides what a part hides, where its brick is one of the set.
fn hide_by_own(
    limits: &mut BTreeMap<u64, Limit>,
    part: &RoundBrick,
    bricks: &BrickSet,
    snapshot: &Snapshot,
) -> Result<(), AllocError>
    requires { 1 ≤ bricks.now.shards }
    ensures { OnOk result (HideMore snapshot.now bricks.now (part.now ∷ []) limits.old limits.new) }
{
    if bricks.has(part.brick()) {
        hide_by_part(limits, part, snapshot)?;
    }
    Ok(())
}

// Hides what parts hide.
fn hide_by_parts(
    limits: &mut BTreeMap<u64, Limit>,
    parts: &[RoundBrick],
    bricks: &BrickSet,
    snapshot: &Snapshot,
) -> Result<(), AllocError>
    requires { 1 ≤ bricks.now.shards }
    ensures { OnOk result (HideMore snapshot.now bricks.now parts.now limits.old limits.new) }
{
    'parts: for part in parts {
        hide_by_own(limits, part, bricks, snapshot)?;
    }
    Ok(())
}

/// Hides what the marks of rounds hide of the bricks from the snapshot.
pub fn hide_by_rounds(
    limits: &mut BTreeMap<u64, Limit>,
    rounds: &[Round],
    bricks: &BrickSet,
    snapshot: &Snapshot,
) -> Result<(), AllocError>
    requires { 1 ≤ bricks.now.shards }
    ensures { OnOk result (HideMore snapshot.now bricks.now
        (parts_of_rounds bricks.now.place rounds.now) limits.old limits.new) }
{
    'rounds: for round in rounds {
        hide_by_parts(limits, parts_of_cube(round, bricks.place), bricks, snapshot)?;
    }
    Ok(())
}
