//! The fold of the rows that a snapshot sees into a partial answer.

ghost use Rattle.std.specs.Prelude.{◌≡◌, if◌then◌else◌, ◌^◌, ◌<◌, ◌≤◌, ◌∷◌, [], IsTrue, length, filter, map, All, OnOk, FitsSigned, slice_index};
ghost use Rattle.std.specs.Int.{w64};
ghost use Rattle.std.specs.List.{items_where_true};
ghost use Rattle.cube_values.specs.Queries.{IsSoundItem, IsSoundQuery};
ghost use Rattle.cube_values.specs.Spans.{span_has, span_has_row};
ghost use Rattle.agg_fold.specs.Standing.{Gains, HasRoom};
ghost use Rattle.agg_fold.specs.Tallies.{metric_number};
ghost use Rattle.brick_columns.specs.Rows.{row_at};
ghost use Rattle.brick_store.specs.Cells.{cell_count, CanFold, HasFitNumber, HasFitNumbers, HoldRows};
ghost use Rattle.brick_store.specs.Whole.{HaveCoordsFrom, row_with_coords};

use crate::cells::cell_count;
use crate::cuts::clear_outside;
use crate::dense::Dense;
use crate::fold_lists::FoldLists;
use crate::rows::read_row;
use agg_fold::Partial;
use brick_columns::Columns;
use cube_values::{Bits, BoundItem, BoundQuery};
use std::alloc::AllocError;

/// So many cells a group may have in a brick of fewer rows for a fold into arrays, and so many a row: with
/// more of them it costs less to add rows one by one than to look at each cell.
const MOST_CELLS: u64 = 4_096;

const CELLS_A_ROW: u64 = 4;

/// So many rows are read from the columns at once.
pub const ROWS_AT_ONCE: u64 = 1_024;

/// Adds the rows whose bit is set and that the query's span has. Where the span has not all rows, the bits of
/// those outside are cleared first. The lists are lent.
pub fn fold_rows(
    lists: &mut FoldLists,
    columns: &Columns,
    starts: &[u32],
    bits: &mut Bits,
    query: &BoundQuery,
    all: bool,
    into: &mut Partial,
) -> Result<(), AllocError>
    requires bits { length bits.old.bits ≡ length columns.now.rows }
    requires readable { HaveCoordsFrom starts.now columns.now }
    requires sound { IsSoundQuery query.now (length starts.now) columns.now.layout.metrics }
    requires all { IsTrue all → All (λ row. IsTrue (span_has_row query.now.span row))
        (map (row_with_coords starts.now) columns.now.rows) }
    requires room { HasRoom query.now (length columns.now.rows) into.old.groups }
    ensures { OnOk result (Gains query.now
        (filter (span_has_row query.now.span)
        (items_where_true bits.old.bits (map (row_with_coords starts.now) columns.now.rows)))
        into.old.groups into.new.groups) }
{
    if all {
        fold_whole(lists, columns, starts, bits, query, into)
    } else {
        fold_cut(lists, columns, starts, bits, query, into)
    }
}

// Adds the rows whose bit is set, where the query's span has all rows.
fn fold_whole(
    lists: &mut FoldLists,
    columns: &Columns,
    starts: &[u32],
    bits: &Bits,
    query: &BoundQuery,
    into: &mut Partial,
) -> Result<(), AllocError>
    requires bits { length bits.now.bits ≡ length columns.now.rows }
    requires readable { HaveCoordsFrom starts.now columns.now }
    requires sound { IsSoundQuery query.now (length starts.now) columns.now.layout.metrics }
    requires all { All (λ row. IsTrue (span_has_row query.now.span row))
        (map (row_with_coords starts.now) columns.now.rows) }
    requires room { HasRoom query.now (length columns.now.rows) into.old.groups }
    ensures { OnOk result (Gains query.now
        (filter (span_has_row query.now.span)
        (items_where_true bits.now.bits (map (row_with_coords starts.now) columns.now.rows)))
        into.old.groups into.new.groups) }
{
    fold_chosen(lists, columns, starts, bits, query, into)
}

// Adds the rows whose bit is set and that the query's span has, and clears the bits of the others.
fn fold_cut(
    lists: &mut FoldLists,
    columns: &Columns,
    starts: &[u32],
    bits: &mut Bits,
    query: &BoundQuery,
    into: &mut Partial,
) -> Result<(), AllocError>
    requires bits { length bits.old.bits ≡ length columns.now.rows }
    requires readable { HaveCoordsFrom starts.now columns.now }
    requires sound { IsSoundQuery query.now (length starts.now) columns.now.layout.metrics }
    requires room { HasRoom query.now (length columns.now.rows) into.old.groups }
    ensures { OnOk result (Gains query.now
        (filter (span_has_row query.now.span)
        (items_where_true bits.old.bits (map (row_with_coords starts.now) columns.now.rows)))
        into.old.groups into.new.groups) }
{
    clear_outside(&mut lists.offsets, columns, starts, &query.span, bits)?;
    fold_chosen(lists, columns, starts, bits, query, into)
}

// Adds the rows whose bit is set, all of which the query's span has. Where no bit is set, no row is looked at.
fn fold_chosen(
    lists: &mut FoldLists,
    columns: &Columns,
    starts: &[u32],
    bits: &Bits,
    query: &BoundQuery,
    into: &mut Partial,
) -> Result<(), AllocError>
    requires bits { length bits.now.bits ≡ length columns.now.rows }
    requires readable { HaveCoordsFrom starts.now columns.now }
    requires sound { IsSoundQuery query.now (length starts.now) columns.now.layout.metrics }
    requires inside { All (λ row. IsTrue (span_has_row query.now.span row))
        (items_where_true bits.now.bits (map (row_with_coords starts.now) columns.now.rows)) }
    requires room { HasRoom query.now (length columns.now.rows) into.old.groups }
    ensures { OnOk result (Gains query.now
        (items_where_true bits.now.bits (map (row_with_coords starts.now) columns.now.rows))
        into.old.groups into.new.groups) }
{
    if bits.ones() == 0 {
        return Ok(());
    }
    let most = most_cells(columns.len());
    if let Some(cells) = cell_count(columns, query.group.as_slice(), most) {
        return fold_cells(lists, columns, starts, bits, query, cells, into);
    }
    fold_each(lists, columns, starts, bits, query, into)
}

// So many cells are worth a fold into arrays for so many rows.
fn most_cells(rows: u64) -> u64
    requires { 0 < rows }
    ensures some { 1 ≤ result }
    ensures few { result < 2 ^ 32 }
{
    let few = rows.saturating_mul(CELLS_A_ROW).min(MOST_CELLS);
    rows.max(few).min(u64::from(u32::MAX))
}

// Adds the rows whose bit is set, by the cells of the query's group.
fn fold_cells(
    lists: &mut FoldLists,
    columns: &Columns,
    starts: &[u32],
    bits: &Bits,
    query: &BoundQuery,
    cells: u64,
    into: &mut Partial,
) -> Result<(), AllocError>
    requires bits { length bits.now.bits ≡ length columns.now.rows }
    requires some { 0 < length columns.now.rows }
    requires readable { HaveCoordsFrom starts.now columns.now }
    requires sound { IsSoundQuery query.now (length starts.now) columns.now.layout.metrics }
    requires inside { All (λ row. IsTrue (span_has_row query.now.span row))
        (items_where_true bits.now.bits (map (row_with_coords starts.now) columns.now.rows)) }
    requires cells { cells ≡ cell_count columns.now.layout.ranges query.now.group }
    requires few { cells < 2 ^ 32 }
    requires ranges { All (λ dim. 0 < slice_index columns.now.layout.ranges dim) query.now.group }
    requires room { HasRoom query.now (length columns.now.rows) into.old.groups }
    ensures { OnOk result (Gains query.now
        (items_where_true bits.now.bits (map (row_with_coords starts.now) columns.now.rows))
        into.old.groups into.new.groups) }
{
    numbers_fit(columns, query.group.as_slice(), query.items.as_slice());
    let at_once = columns.len().min(ROWS_AT_ONCE) as usize;
    lists.fit(query, at_once)?;
    lists.dense.reset(query, cells as usize)?;
    add_runs(
        columns,
        bits,
        query,
        &mut lists.dense,
        lists.numbers.as_mut_slice(),
        lists.offsets.as_mut_slice(),
    );
    lists.dense.add_to(
        columns,
        starts,
        query,
        lists.key.as_mut_slice(),
        lists.sums.as_mut_slice(),
        lists.lows.as_mut_slice(),
        lists.highs.as_mut_slice(),
        into,
    )?;
    Ok(())
}

// Adds the rows whose bit is set, run by run, to cells that have none. The lists are lent.
fn add_runs(
    columns: &Columns,
    bits: &Bits,
    query: &BoundQuery,
    dense: &mut Dense,
    numbers: &mut [u32],
    offsets: &mut [u32],
)
    requires bits { length bits.now.bits ≡ length columns.now.rows }
    requires few { length columns.now.rows < 2 ^ 63 }
    requires some { 0 < length numbers.old }
    requires as_long { length offsets.old ≡ length numbers.old }
    requires fold { CanFold query.now columns.now }
    requires empty { HoldRows columns.now.layout.ranges query.now
        (cell_count columns.now.layout.ranges query.now.group) [] dense.old }
    ensures { HoldRows columns.now.layout.ranges query.now
        (cell_count columns.now.layout.ranges query.now.group)
        (items_where_true bits.now.bits columns.now.rows) dense.new }
{
    let mut at = 0;
    'runs: while at < bits.len() {
        let from = bits.next(at, true);
        let to = bits.next(from, false);
        dense.add_rows(columns, query, from, to, numbers, offsets);
        at = to;
    }
}

// The numbers that items ask of rows have 64 bits, as the lists of the metrics say.
fn numbers_fit(columns: &Columns, group: &[u32], items: &[BoundItem])
    requires items { All (IsSoundItem group.now columns.now.layout.metrics) items.now }
    requires wide { columns.now.layout.metrics < 2 ^ 32 }
    ensures { All (HasFitNumbers items.now) columns.now.rows }
{
    'items: for item in items {
        number_fits(columns, group, *item);
    }
}

// The numbers that an item asks of rows have 64 bits.
fn number_fits(columns: &Columns, group: &[u32], item: BoundItem)
    requires item { IsSoundItem group.now columns.now.layout.metrics item }
    requires wide { columns.now.layout.metrics < 2 ^ 32 }
    ensures { All (HasFitNumber item) columns.now.rows }
{
    match item {
        BoundItem::Group(_) | BoundItem::Count => {}
        BoundItem::Sum(metric) => metric_fits(columns, metric),
        BoundItem::Min(metric) => metric_fits(columns, metric),
        BoundItem::Max(metric) => metric_fits(columns, metric),
        BoundItem::Avg(metric) => metric_fits(columns, metric),
    }
}

// A metric of rows has 64 bits.
fn metric_fits(columns: &Columns, metric: u32)
    requires { metric < columns.now.layout.metrics }
    ensures { All (λ row. FitsSigned w64 (metric_number metric row.metrics)) columns.now.rows }
{
    all_fit(columns.metrics_of(metric));
}

// Numbers in 64 bits have 64 bits, as each read of one says.
fn all_fit(numbers: &[i64])
    ensures { All (FitsSigned w64) numbers.now }
{
    'numbers: for i in 0..numbers.len() {
        let _number = numbers[i];
    }
}

// Adds the rows whose bit is set, one after another.
fn fold_each(
    lists: &mut FoldLists,
    columns: &Columns,
    starts: &[u32],
    bits: &Bits,
    query: &BoundQuery,
    into: &mut Partial,
) -> Result<(), AllocError>
    requires bits { length bits.now.bits ≡ length columns.now.rows }
    requires readable { HaveCoordsFrom starts.now columns.now }
    requires sound { IsSoundQuery query.now (length starts.now) columns.now.layout.metrics }
    requires inside { All (λ row. IsTrue (span_has_row query.now.span row))
        (items_where_true bits.now.bits (map (row_with_coords starts.now) columns.now.rows)) }
    requires room { HasRoom query.now (length columns.now.rows) into.old.groups }
    ensures { OnOk result (Gains query.now
        (items_where_true bits.now.bits (map (row_with_coords starts.now) columns.now.rows))
        into.old.groups into.new.groups) }
{
    let coords = &mut lists.coords;
    let metrics = &mut lists.metrics;
    coords.resize(starts.len(), 0)?;
    metrics.resize(columns.width(), 0)?;
    'rows: for row in 0..columns.len() {
        fold_row(
            columns,
            starts,
            row,
            bits.get(row),
            query,
            coords.as_mut_slice(),
            metrics.as_mut_slice(),
            into,
        )?;
    }
    Ok(())
}

// Adds a row that is seen, which the query's span has. The lists are lent for its coordinates and metrics.
fn fold_row(
    columns: &Columns,
    starts: &[u32],
    row: u64,
    seen: bool,
    query: &BoundQuery,
    coords: &mut [u32],
    metrics: &mut [i64],
    into: &mut Partial,
) -> Result<(), AllocError>
    requires row { row < length columns.now.rows }
    requires readable { HaveCoordsFrom starts.now columns.now }
    requires coords_long { length coords.old ≡ length starts.now }
    requires metrics_long { length metrics.old ≡ columns.now.layout.metrics }
    requires sound { IsSoundQuery query.now (length starts.now) columns.now.layout.metrics }
    requires inside { IsTrue seen → IsTrue (span_has_row query.now.span
        (row_with_coords starts.now (row_at columns.now.rows row))) }
    requires room { HasRoom query.now 1 into.old.groups }
    ensures coords { length coords.new ≡ length coords.old }
    ensures metrics { length metrics.new ≡ length metrics.old }
    ensures gains { OnOk result (Gains query.now
        (if seen then row_with_coords starts.now (row_at columns.now.rows row) ∷ [] else [])
        into.old.groups into.new.groups) }
{
    if seen {
        read_row(columns, starts, row, coords, metrics);
        into.add_row(query, coords, metrics)?;
    }
    Ok(())
}
