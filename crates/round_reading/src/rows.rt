//! The rows of an entry.

ghost use Rattle.std.specs.Prelude.{◌≡◌, ◌≤◌, ◌<◌, ℕ, List, length, OnOk};
ghost use Rattle.cube_language.specs.Cubes.{sizes_of};
ghost use Rattle.round_fields.specs.Reading.{GivesRead, repeat_step};
ghost use Rattle.round_reading.specs.Payload.{coord_step, coords_from, metric_step, metrics_from, row_step, run_rows_from, appended_from};
ghost use Rattle.round_reading.specs.Limits.{AreLimits};

use brick_address::brick_of;
use cube_schema::Schema;
use cube_values::{CallError, CodedRows, Entry, Text, grown_room};
use round_fields::{count_of, four_of, signed_of};
use std::alloc::AllocError;

/// A coordinate, put behind those before it.
#[inline(always)]
fn take_coord<'a>(
    bytes: &'a [u8],
    limit: u32,
    coords: &mut Vec<u32>,
) -> Result<&'a [u8], CallError<usize>>
    ensures { GivesRead (λ rest. (coords.new.items, rest.now)) result
        (coord_step limit coords.old.items bytes.now) }
{
    let (coord, rest) = four_of(bytes)?;
    if limit <= coord {
        return Err(CallError::Fault(bytes.len()));
    }
    coords.push(coord)?;
    Ok(rest)
}

/// A coordinate for each limit, in a list that they take the place of.
fn take_coords<'a>(
    bytes: &'a [u8],
    limits: &[u32],
    coords: &mut Vec<u32>,
) -> Result<&'a [u8], CallError<usize>>
    ensures { GivesRead (λ rest. (coords.new.items, rest.now)) result
        (coords_from limits.now bytes.now) }
{
    coords.clear();
    let mut rest = bytes;
    'limits: for limit in limits {
        rest = take_coord(rest, *limit, coords)?;
    }
    Ok(rest)
}

/// A metric, put behind those before it.
#[inline(always)]
fn take_metric<'a>(bytes: &'a [u8], metrics: &mut Vec<i64>) -> Result<&'a [u8], CallError<usize>>
    ensures { (name : List ℕ) → GivesRead (λ rest. (metrics.new.items, rest.now)) result
        (metric_step name metrics.old.items bytes.now) }
{
    let (metric, rest) = signed_of(bytes)?;
    metrics.push(metric)?;
    Ok(rest)
}

/// A metric for each name, in a list that they take the place of.
fn take_metrics<'a>(
    bytes: &'a [u8],
    names: &[Text],
    metrics: &mut Vec<i64>,
) -> Result<&'a [u8], CallError<usize>>
    ensures { GivesRead (λ rest. (metrics.new.items, rest.now)) result
        (metrics_from names.now bytes.now) }
{
    metrics.clear();
    let mut rest = bytes;
    'names: for _ in 0..names.len() {
        rest = take_metric(rest, metrics)?;
    }
    Ok(rest)
}

/// Lists that one row at a time is read into, so that no row takes memory of its own.
#[derive(Drop)]
pub(crate) struct RowLists {
    pub coords: Vec<u32>,
    pub metrics: Vec<i64>,
}

/// Makes room for one row more.
#[inline(always)]
fn make_room(rows: &mut CodedRows) -> Result<(), AllocError>
    ensures same { rows.new ≡ record rows.old { room = rows.new.room } }
    ensures room { OnOk result (length rows.new.rows < rows.new.room) }
{
    let len = rows.len();
    if len == usize::MAX {
        return Err(AllocError);
    }
    rows.reserve(grown_room(rows.room() as u64, (len + 1) as u64) as usize)?;
    Ok(())
}

/// A row of a brick, put behind those before it.
#[tactic(auto, unfolding(crate::specs::Payload::row_from))]
fn take_row<'a>(
    bytes: &'a [u8],
    schema: &Schema,
    limits: &[u32],
    brick: u64,
    lists: &mut RowLists,
    rows: &mut CodedRows,
) -> Result<&'a [u8], CallError<usize>>
    requires limits { AreLimits limits.now (sizes_of schema.now.dims) }
    requires dims { rows.old.dims ≡ length schema.now.dims }
    requires width { rows.old.width ≡ length schema.now.metrics }
    ensures rows { GivesRead (λ rest. (rows.new.rows, rest.now)) result
        (row_step schema.now limits.now brick rows.old.rows bytes.now) }
    ensures dims { rows.new.dims ≡ rows.old.dims }
    ensures width { rows.new.width ≡ rows.old.width }
{
    let rest = take_coords(bytes, limits, &mut lists.coords)?;
    if brick_of(schema.shape(), lists.coords.as_slice()) != brick {
        return Err(CallError::Fault(bytes.len()));
    }
    let names = schema.decl().metrics.as_slice();
    let rest = take_metrics(rest, names, &mut lists.metrics)?;
    make_room(rows)?;
    rows.push(lists.coords.as_slice(), lists.metrics.as_slice());
    Ok(rest)
}

/// The rows of a run, put behind those before them.
#[tactic(auto, unfolding(crate::specs::Payload::run_rows_from))]
fn take_rows<'a>(
    bytes: &'a [u8],
    schema: &Schema,
    limits: &[u32],
    brick: u64,
    lists: &mut RowLists,
    rows: &mut CodedRows,
) -> Result<&'a [u8], CallError<usize>>
    requires limits { AreLimits limits.now (sizes_of schema.now.dims) }
    requires dims { rows.old.dims ≡ length schema.now.dims }
    requires width { rows.old.width ≡ length schema.now.metrics }
    ensures rows { GivesRead (λ rest. (rows.new.rows, rest.now)) result
        (run_rows_from schema.now limits.now brick rows.old.rows bytes.now) }
    ensures dims { rows.new.dims ≡ rows.old.dims }
    ensures width { rows.new.width ≡ rows.old.width }
{
    let (count, rest) = count_of(bytes)?;
    reserve_rows(rows, count, rest.len())?;
    take_counted(rest, count, schema, limits, brick, lists, rows)
}

/// Makes room for so many rows more, or for as many as so many bytes can have.
fn reserve_rows(rows: &mut CodedRows, count: u64, bytes: usize) -> Result<(), AllocError>
    ensures { rows.new ≡ record rows.old { room = rows.new.room } }
{
    let size = rows
        .dims()
        .saturating_mul(4)
        .saturating_add(rows.width().saturating_mul(8));
    let most = bytes / size.max(1);
    let more = usize::try_from(count).unwrap_or(most).min(most);
    rows.reserve(rows.len().saturating_add(more))
}

/// So many rows, put behind those before them.
fn take_counted<'a>(
    bytes: &'a [u8],
    count: u64,
    schema: &Schema,
    limits: &[u32],
    brick: u64,
    lists: &mut RowLists,
    rows: &mut CodedRows,
) -> Result<&'a [u8], CallError<usize>>
    requires limits { AreLimits limits.now (sizes_of schema.now.dims) }
    requires dims { rows.old.dims ≡ length schema.now.dims }
    requires width { rows.old.width ≡ length schema.now.metrics }
    ensures rows { GivesRead (λ rest. (rows.new.rows, rest.now)) result
        (repeat_step (row_step schema.now limits.now brick) count rows.old.rows bytes.now) }
    ensures dims { rows.new.dims ≡ rows.old.dims }
    ensures width { rows.new.width ≡ rows.old.width }
{
    let mut rest = bytes;
    'rows: for _ in 0..count {
        rest = take_row(rest, schema, limits, brick, lists, rows)?;
    }
    Ok(rest)
}

/// The rows that an entry appends.
pub(crate) fn take_appended<'a>(
    bytes: &'a [u8],
    entry: Entry,
    schema: &Schema,
    limits: &[u32],
    brick: u64,
    lists: &mut RowLists,
    rows: &mut CodedRows,
) -> Result<&'a [u8], CallError<usize>>
    requires limits { AreLimits limits.now (sizes_of schema.now.dims) }
    requires dims { rows.old.dims ≡ length schema.now.dims }
    requires width { rows.old.width ≡ length schema.now.metrics }
    ensures rows { GivesRead (λ rest. (rows.new.rows, rest.now)) result
        (appended_from schema.now limits.now brick entry rows.old.rows bytes.now) }
    ensures dims { rows.new.dims ≡ rows.old.dims }
    ensures width { rows.new.width ≡ rows.old.width }
{
    match entry {
        Entry::Run { .. } => take_rows(bytes, schema, limits, brick, lists, rows),
        Entry::Mark { .. } => Ok(bytes),
    }
}
