//! The entries of a brick, and bricks.

ghost use Rattle.std.specs.Prelude.{◌≡◌, ◌^◌, ◌<◌, [], length, IfOk};
ghost use Rattle.cube_values.specs.EpochsVector.{IsVector};
ghost use Rattle.cube_language.specs.Cubes.{sizes_of};
ghost use Rattle.round_fields.specs.Reading.{GivesRead, repeat_step};
ghost use Rattle.round_reading.specs.Payload.{joins_last, may_come_next, entry_of_kind, kind_from, brick_content, entry_step, entries_from, rising_bricks, brick_from, brick_step, bricks_counted, bricks_from};
ghost use Rattle.round_reading.specs.Limits.{AreLimits};

use crate::rows::{RowLists, take_appended};
use brick_address::bricks_of;
use cube_rounds::RoundBrick;
use cube_schema::Schema;
use cube_values::{CallError, CodedRows, Entries, Entry};
use round_fields::{count_of, eight_of, kind_of, number_within};
use std::alloc::Global;

/// The first byte of a run; that of a mark is another.
const RUN: u8 = 0;

/// The epochs of a round: above the first, up to the second.
#[derive(Clone, Copy, Debug)]
pub(crate) struct RoundEpochs {
    pub from: u64,
    pub epoch: u64,
}

fn joins_last(entries: &[Entry], next: Entry) -> bool
    ensures { result ≡ joins_last entries.now next }
{
    match entries {
        [] => false,
        [.., last] => last.is_one_with(next),
    }
}

fn may_come_next(epochs: RoundEpochs, entries: &[Entry], next: Entry) -> bool
    ensures { result ≡ may_come_next epochs.from epochs.epoch entries.now next }
{
    epochs.from < next.maker() && next.maker() <= epochs.epoch && !joins_last(entries, next)
}

fn entry_of_kind(kind: u8, epoch: u64, rows: u64) -> Entry
    ensures { result ≡ entry_of_kind kind epoch rows }
{
    if kind == RUN {
        Entry::Run { epoch, end: rows }
    } else {
        Entry::Mark { epoch, at: rows }
    }
}

/// The kind and the epoch of an entry behind these and so many rows.
#[tactic(auto, unfolding(crate::specs::Payload::kind_from))]
fn kind_from<'a>(
    bytes: &'a [u8],
    epochs: RoundEpochs,
    entries: &[Entry],
    rows: u64,
) -> Result<(Entry, &'a [u8]), CallError<usize>>
    ensures { GivesRead (λ x. (x.0, x.1.now)) result
        (kind_from epochs.from epochs.epoch entries.now rows bytes.now) }
{
    let (kind, rest) = kind_of(bytes)?;
    let (epoch, rest) = eight_of(rest)?;
    let entry = entry_of_kind(kind, epoch, rows);
    if may_come_next(epochs, entries, entry) {
        Ok((entry, rest))
    } else {
        Err(CallError::Fault(bytes.len()))
    }
}

/// An entry and its rows, put behind those before them.
#[tactic(auto, unfolding(crate::specs::Payload::entry_step))]
fn take_entry<'a>(
    bytes: &'a [u8],
    schema: &Schema,
    limits: &[u32],
    epochs: RoundEpochs,
    brick: u64,
    lists: &mut RowLists,
    entries: &mut Vec<Entry>,
    rows: &mut CodedRows,
) -> Result<&'a [u8], CallError<usize>>
    requires limits { AreLimits limits.now (sizes_of schema.now.dims) }
    requires dims { rows.old.dims ≡ length schema.now.dims }
    requires width { rows.old.width ≡ length schema.now.metrics }
    ensures entry { GivesRead
        (λ rest. (brick_content entries.new.items rows.new.rows, rest.now)) result
        (entry_step schema.now limits.now epochs.from epochs.epoch brick
        (brick_content entries.old.items rows.old.rows) bytes.now) }
    ensures dims { rows.new.dims ≡ rows.old.dims }
    ensures width { rows.new.width ≡ rows.old.width }
{
    let (entry, rest) = kind_from(bytes, epochs, entries.as_slice(), rows.len() as u64)?;
    let rest = take_appended(rest, entry, schema, limits, brick, lists, rows)?;
    entries.push(entry.with_rows_after(rows.len() as u64))?;
    Ok(rest)
}

/// So many entries with their rows, put behind those before them.
fn take_counted<'a>(
    bytes: &'a [u8],
    count: u64,
    schema: &Schema,
    limits: &[u32],
    epochs: RoundEpochs,
    brick: u64,
    lists: &mut RowLists,
    entries: &mut Vec<Entry>,
    rows: &mut CodedRows,
) -> Result<&'a [u8], CallError<usize>>
    requires limits { AreLimits limits.now (sizes_of schema.now.dims) }
    requires dims { rows.old.dims ≡ length schema.now.dims }
    requires width { rows.old.width ≡ length schema.now.metrics }
    ensures { GivesRead (λ rest. (brick_content entries.new.items rows.new.rows, rest.now)) result
        (repeat_step (entry_step schema.now limits.now epochs.from epochs.epoch brick) count
        (brick_content entries.old.items rows.old.rows) bytes.now) }
{
    let mut rest = bytes;
    'entries: for _ in 0..count {
        rest = take_entry(rest, schema, limits, epochs, brick, lists, entries, rows)?;
    }
    Ok(rest)
}

/// The entries of a brick with their rows, in lists that have none.
#[tactic(auto, unfolding(crate::specs::Payload::entries_from))]
fn take_entries<'a>(
    bytes: &'a [u8],
    schema: &Schema,
    limits: &[u32],
    epochs: RoundEpochs,
    brick: u64,
    lists: &mut RowLists,
    entries: &mut Vec<Entry>,
    rows: &mut CodedRows,
) -> Result<&'a [u8], CallError<usize>>
    requires limits { AreLimits limits.now (sizes_of schema.now.dims) }
    requires dims { rows.old.dims ≡ length schema.now.dims }
    requires width { rows.old.width ≡ length schema.now.metrics }
    requires no_entries { entries.old.items ≡ [] }
    requires no_rows { rows.old.rows ≡ [] }
    ensures { GivesRead (λ rest. (brick_content entries.new.items rows.new.rows, rest.now)) result
        (entries_from schema.now limits.now epochs.from epochs.epoch brick bytes.now) }
{
    let (count, rest) = count_of(bytes)?;
    take_counted(
        rest, count, schema, limits, epochs, brick, lists, entries, rows,
    )
}

/// A brick whose number is not below the least.
#[tactic(auto, unfolding(crate::specs::Payload::brick_from))]
fn brick_of<'a>(
    bytes: &'a [u8],
    alloc: Global,
    schema: &Schema,
    limits: &[u32],
    epochs: RoundEpochs,
    least: u64,
    lists: &mut RowLists,
) -> Result<(RoundBrick, &'a [u8]), CallError<usize>>
    requires { AreLimits limits.now (sizes_of schema.now.dims) }
    ensures brick { GivesRead (λ x. (x.0, x.1.now)) result
        (brick_from schema.now limits.now epochs.from epochs.epoch least bytes.now) }
    ensures small { IfOk result (λ x. x.0.brick < 2 ^ 62) }
{
    let end = bricks_of(schema.shape().sizes.as_slice());
    let (number, rest) = number_within(bytes, least, end)?;
    let decl = schema.decl();
    let mut entries = Vec::new(alloc);
    let mut rows = CodedRows::new(alloc, decl.dims.len(), decl.metrics.len());
    let rest = take_entries(
        rest,
        schema,
        limits,
        epochs,
        number,
        lists,
        &mut entries,
        &mut rows,
    )?;
    Ok((
        RoundBrick::new(number, Entries::from_vec(entries), rows),
        rest,
    ))
}

/// A brick above those before it, put behind them.
fn take_brick<'a>(
    bytes: &'a [u8],
    alloc: Global,
    schema: &Schema,
    limits: &[u32],
    epochs: RoundEpochs,
    lists: &mut RowLists,
    least: &mut u64,
    bricks: &mut Vec<RoundBrick>,
) -> Result<&'a [u8], CallError<usize>>
    requires { AreLimits limits.now (sizes_of schema.now.dims) }
    ensures { GivesRead (λ rest. (rising_bricks least.new bricks.new.items, rest.now)) result
        (brick_step schema.now limits.now epochs.from epochs.epoch
        (rising_bricks least.old bricks.old.items) bytes.now) }
{
    let (brick, rest) = brick_of(bytes, alloc, schema, limits, epochs, *least, lists)?;
    *least = brick.brick() + 1;
    bricks.push(brick)?;
    Ok(rest)
}

/// RisingBricks behind their number.
#[tactic(auto, unfolding(crate::specs::Payload::bricks_from))]
pub(crate) fn bricks_from<'a>(
    bytes: &'a [u8],
    alloc: Global,
    schema: &Schema,
    limits: &[u32],
    epochs: RoundEpochs,
) -> Result<(Vec<RoundBrick>, &'a [u8]), CallError<usize>>
    requires { AreLimits limits.now (sizes_of schema.now.dims) }
    ensures { GivesRead (λ x. (x.0.items, x.1.now)) result
        (bricks_from schema.now limits.now epochs.from epochs.epoch bytes.now) }
{
    let (count, rest) = eight_of(bytes)?;
    counted_bricks(rest, alloc, count, schema, limits, epochs)
}

/// So many bricks.
fn counted_bricks<'a>(
    bytes: &'a [u8],
    alloc: Global,
    count: u64,
    schema: &Schema,
    limits: &[u32],
    epochs: RoundEpochs,
) -> Result<(Vec<RoundBrick>, &'a [u8]), CallError<usize>>
    requires { AreLimits limits.now (sizes_of schema.now.dims) }
    ensures { GivesRead (λ x. (x.0.items, x.1.now)) result
        (bricks_counted schema.now limits.now epochs.from epochs.epoch count bytes.now) }
{
    let mut lists = RowLists {
        coords: Vec::new(alloc),
        metrics: Vec::new(alloc),
    };
    let mut bricks = Vec::new(alloc);
    let mut least = 0;
    let mut rest = bytes;
    'bricks: for _ in 0..count {
        rest = take_brick(
            rest,
            alloc,
            schema,
            limits,
            epochs,
            &mut lists,
            &mut least,
            &mut bricks,
        )?;
    }
    Ok((bricks, rest))
}
