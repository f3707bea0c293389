//! The fold of rows into arrays, with one place for each cell.

ghost use Rattle.std.specs.Prelude.{◌≡◌, ℕ, List, ◌+◌, ◌-◌, ◌^◌, ◌<◌, ◌≤◌, ◌==◌, [], length, map, pos, Some, All, IfOk, OnOk, slice_index, slice_index_or, count_by};
ghost use Rattle.cube_values.specs.Queries.{IsSoundItem};
ghost use Rattle.agg_fold.specs.Standing.{Gains, HasRoom};
ghost use Rattle.agg_fold.specs.Tallies.{metric_asked, tally_of};
ghost use Rattle.cube_values.specs.declared.query.BoundItem.{BoundItem};
ghost use Rattle.cube_values.specs.declared.query.BoundItem.TheVariants.{Group};
ghost use Rattle.brick_columns.specs.Rows.{BrickRow};
ghost use Rattle.brick_store.specs.Cells.{cell_count, cell_of, rows_in_cell, cell_tally, HasCells, HasFitNumbers, IsToldBy, HoldRows, CanFold, HoldMore, CanHold, columns_between, IsTakenRow, TalliesMore, AreCellsFrom, HasSmallTallies};
ghost use Rattle.brick_store.specs.Whole.{row_with_coords};
ghost use Rattle.brick_store.specs.declared.cell_tallies.CellTallies.TheVariants.{Nothing};

use crate::cell_tallies::CellTallies;
use crate::cells::{number_cells, write_key};
use agg_fold::Partial;
use brick_columns::Columns;
use cube_values::{BoundItem, BoundQuery};
use std::alloc::{AllocError, Global};

/// The counts of cells, and for each item of a query what cells have of its numbers.
#[derive(Debug, Drop)]
pub struct Dense {
    pub counts: Vec<u64>,
    pub tallies: Vec<CellTallies>,
}

impl Dense {
    /// No cells. It takes no memory.
    pub fn new(alloc: Global) -> Dense {
        Dense {
            counts: Vec::new(alloc),
            tallies: Vec::new(alloc),
        }
    }

    /// Leaves so many cells without rows.
    pub fn reset(&mut self, query: &BoundQuery, cells: usize) -> Result<(), AllocError>
        ensures { OnOk result
            ((ranges : List ℕ) → HoldRows ranges query.now cells [] self.new) }
    {
        self.counts.clear();
        self.counts.resize(cells, 0)?;
        empty_tallies(&mut self.tallies, query.items.as_slice(), cells)
    }

    /// Adds the rows of columns from one place up to another. The lists are lent, and say how many rows are
    /// looked at at once.
    pub fn add_rows(
        &mut self,
        columns: &Columns,
        query: &BoundQuery,
        from: u64,
        to: u64,
        cells: &mut [u32],
        offsets: &mut [u32],
    )
        requires order { from ≤ to }
        requires within { to ≤ length columns.now.rows }
        requires some { 0 < length cells.old }
        requires as_long { length offsets.old ≡ length cells.old }
        requires fold { CanFold query.now columns.now }
        requires held { CanHold columns.now.layout.ranges query.now
            (cell_count columns.now.layout.ranges query.now.group) (to - from) self.old }
        ensures { HoldMore columns.now.layout.ranges query.now
            (cell_count columns.now.layout.ranges query.now.group)
            (columns_between from to columns.now.rows) self.old self.new }
    {
        let mut at = from;
        'chunks: while at < to {
            let n = (to - at).min(cells.len() as u64);
            self.add_part(
                columns,
                query,
                at,
                &mut cells[..n as usize],
                &mut offsets[..n as usize],
            );
            at += n;
        }
    }

    /// Adds rows from one on, one for each item of the lists that are lent.
    pub fn add_chunk(
        &mut self,
        columns: &Columns,
        query: &BoundQuery,
        from: u64,
        cells: &mut [u32],
        offsets: &mut [u32],
    )
        requires rows { from + length cells.old ≤ length columns.now.rows }
        requires as_long { length offsets.old ≡ length cells.old }
        requires fold { CanFold query.now columns.now }
        requires held { CanHold columns.now.layout.ranges query.now
            (cell_count columns.now.layout.ranges query.now.group) (length cells.old) self.old }
        ensures { HoldMore columns.now.layout.ranges query.now
            (cell_count columns.now.layout.ranges query.now.group)
            (columns_between from (from + length cells.old) columns.now.rows) self.old self.new }
    {
        number_cells(columns, query.group.as_slice(), from, cells, offsets);
        count_cells(self.counts.as_mut_slice(), cells);
        add_items(
            self.tallies.as_mut_slice(),
            query.items.as_slice(),
            query.group.as_slice(),
            columns,
            from,
            cells,
        );
    }

    /// Adds to a partial the rows that the cells have. The lists are lent.
    pub fn add_to(
        &self,
        columns: &Columns,
        starts: &[u32],
        query: &BoundQuery,
        key: &mut [u32],
        sums: &mut [i128],
        lows: &mut [i64],
        highs: &mut [i64],
        into: &mut Partial,
    ) -> Result<(), AllocError>
        requires starts { length starts.now ≡ length columns.now.layout.ranges }
        requires fold { CanFold query.now columns.now }
        requires key { length key.old ≡ length query.now.group }
        requires sums { length sums.old ≡ length query.now.items }
        requires lows { length lows.old ≡ length query.now.items }
        requires highs { length highs.old ≡ length query.now.items }
        requires held { (rows : List BrickRow)
            × HoldRows columns.now.layout.ranges query.now
            (cell_count columns.now.layout.ranges query.now.group) rows self.now
            × All (IsTakenRow columns.now.layout starts.now query.now) rows
            × HasRoom query.now (length rows) into.old.groups }
        ensures { OnOk result ((rows : List BrickRow)
            → HoldRows columns.now.layout.ranges query.now
            (cell_count columns.now.layout.ranges query.now.group) rows self.now
            → All (IsTakenRow columns.now.layout starts.now query.now) rows
            → Gains query.now (map (row_with_coords starts.now) rows)
            into.old.groups into.new.groups) }
    {
        'cells: for cell in 0..self.counts.len() {
            self.add_cell(columns, starts, query, cell, key, sums, lows, highs, into)?;
        }
        Ok(())
    }
}

impl Dense {
    // Adds to a partial the rows of one cell. The lists are lent.
    fn add_cell(
        &self,
        columns: &Columns,
        starts: &[u32],
        query: &BoundQuery,
        cell: usize,
        key: &mut [u32],
        sums: &mut [i128],
        lows: &mut [i64],
        highs: &mut [i64],
        into: &mut Partial,
    ) -> Result<(), AllocError>
        requires starts { length starts.now ≡ length columns.now.layout.ranges }
        requires fold { CanFold query.now columns.now }
        requires cell { cell < length self.now.counts.items }
        requires key { length key.old ≡ length query.now.group }
        requires sums { length sums.old ≡ length query.now.items }
        requires lows { length lows.old ≡ length query.now.items }
        requires highs { length highs.old ≡ length query.now.items }
        requires held { (rows : List BrickRow)
            × HoldRows columns.now.layout.ranges query.now
            (cell_count columns.now.layout.ranges query.now.group) rows self.now
            × All (IsTakenRow columns.now.layout starts.now query.now) rows
            × HasRoom query.now (slice_index self.now.counts.items cell) into.old.groups }
        ensures { OnOk result ((rows : List BrickRow)
            → HoldRows columns.now.layout.ranges query.now
            (cell_count columns.now.layout.ranges query.now.group) rows self.now
            → All (IsTakenRow columns.now.layout starts.now query.now) rows
            → Gains query.now (map (row_with_coords starts.now)
            (rows_in_cell columns.now.layout.ranges query.now.group cell rows))
            into.old.groups into.new.groups) }
    {
        let rows = self.counts[cell];
        if rows == 0 {
            return Ok(());
        }
        write_key(columns, starts, query.group.as_slice(), cell as u32, key);
        tell(self.tallies.as_slice(), cell, sums, lows, highs);
        into.add_group(query, key, rows, sums, lows, highs)?;
        Ok(())
    }
}

// Leaves for each item what is kept of no rows.
fn empty_tallies(
    tallies: &mut Vec<CellTallies>,
    items: &[BoundItem],
    cells: usize,
) -> Result<(), AllocError>
    ensures many { OnOk result (length tallies.new.items ≡ length items.now) }
    ensures long { OnOk result (All (HasCells cells) tallies.new.items) }
    ensures empty { OnOk result ((i cell : ℕ) → i < length items.now → cell < cells
        → cell_tally (slice_index_or tallies.new.items i Nothing) cell
        ≡ tally_of [] (slice_index_or items.now i (Group 0))) }
{
    take_many(tallies, items.len())?;
    reset_each(*tallies.allocator(), tallies.as_mut_slice(), items, cells)
}

// Leaves so many tallies.
fn take_many(tallies: &mut Vec<CellTallies>, many: usize) -> Result<(), AllocError>
    ensures { OnOk result (length tallies.new.items ≡ many) }
{
    tallies.truncate(many);
    for _i in tallies.len()..many {
        tallies.push(CellTallies::Nothing)?;
    }
    Ok(())
}

// Leaves for each item what is kept of no rows.
fn reset_each(
    alloc: Global,
    tallies: &mut [CellTallies],
    items: &[BoundItem],
    cells: usize,
) -> Result<(), AllocError>
    requires { length tallies.old ≡ length items.now }
    ensures long { OnOk result (All (HasCells cells) tallies.new) }
    ensures empty { OnOk result ((i cell : ℕ) → i < length items.now → cell < cells
        → cell_tally (slice_index_or tallies.new i Nothing) cell
        ≡ tally_of [] (slice_index_or items.now i (Group 0))) }
{
    'items: for i in 0..items.len() {
        tallies[i].reset(alloc, items[i], cells)?;
    }
    Ok(())
}

// Counts the rows of which these are the cells.
fn count_cells(counts: &mut [u64], cells: &[u32])
    requires within { All (λ cell. cell < length counts.old) cells.now }
    requires room { All (λ n. n + length cells.now < 2 ^ 64) counts.old }
    ensures { (cell : ℕ) → cell < length counts.old → slice_index counts.new cell
        ≡ slice_index counts.old cell + count_by (λ c. c == cell) cells.now }
{
    if counts.len() == 1 {
        counts[0] += cells.len() as u64;
        return;
    }
    'rows: for i in 0..cells.len() {
        counts[cells[i] as usize] += 1;
    }
}

// Adds to the tallies of each item the numbers of the rows from one on, of which these are the cells.
fn add_items(
    tallies: &mut [CellTallies],
    items: &[BoundItem],
    group: &[u32],
    columns: &Columns,
    from: u64,
    cells: &[u32],
)
    requires as_many { length tallies.old ≡ length items.now }
    requires items { All (IsSoundItem group.now columns.now.layout.metrics) items.now }
    requires wide { columns.now.layout.metrics < 2 ^ 32 }
    requires rows { from + length cells.now ≤ length columns.now.rows }
    requires cells { AreCellsFrom columns.now group.now from cells.now }
    requires within { (n : ℕ) × All (HasCells n) tallies.old × All (λ cell. cell < n) cells.now }
    requires small { All HasSmallTallies tallies.old }
    ensures { (i : ℕ) → i < length items.now
        → TalliesMore columns.now.layout.ranges group.now (slice_index_or items.now i (Group 0))
        (columns_between from (from + length cells.now) columns.now.rows)
        (slice_index_or tallies.old i Nothing) (slice_index_or tallies.new i Nothing) }
{
    'items: for (i, tally) in tallies.iter_mut().enumerate() {
        add_item(tally, items[i], group, columns, from, cells);
    }
}

// Adds to the tallies of an item the numbers of the rows from one on, of which these are the cells.
fn add_item(
    tally: &mut CellTallies,
    item: BoundItem,
    group: &[u32],
    columns: &Columns,
    from: u64,
    cells: &[u32],
)
    requires item { IsSoundItem group.now columns.now.layout.metrics item }
    requires wide { columns.now.layout.metrics < 2 ^ 32 }
    requires rows { from + length cells.now ≤ length columns.now.rows }
    requires cells { AreCellsFrom columns.now group.now from cells.now }
    requires within { (n : ℕ) × HasCells n tally.old × All (λ cell. cell < n) cells.now }
    requires small { HasSmallTallies tally.old }
    ensures { TalliesMore columns.now.layout.ranges group.now item
        (columns_between from (from + length cells.now) columns.now.rows) tally.old tally.new }
{
    match item {
        BoundItem::Group(_) | BoundItem::Count => {}
        BoundItem::Sum(metric) => add_metric(tally, metric, group, columns, from, cells),
        BoundItem::Min(metric) => add_metric(tally, metric, group, columns, from, cells),
        BoundItem::Max(metric) => add_metric(tally, metric, group, columns, from, cells),
        BoundItem::Avg(metric) => add_metric(tally, metric, group, columns, from, cells),
    }
}

// Adds a metric of the rows from one on, of which these are the cells.
fn add_metric(
    tally: &mut CellTallies,
    metric: u32,
    group: &[u32],
    columns: &Columns,
    from: u64,
    cells: &[u32],
)
    requires metric { metric < columns.now.layout.metrics }
    requires rows { from + length cells.now ≤ length columns.now.rows }
    requires cells { AreCellsFrom columns.now group.now from cells.now }
    requires within { (n : ℕ) × HasCells n tally.old × All (λ cell. cell < n) cells.now }
    requires small { HasSmallTallies tally.old }
    ensures { (item : BoundItem) → metric_asked item ≡ Some metric
        → TalliesMore columns.now.layout.ranges group.now item
        (columns_between from (from + length cells.now) columns.now.rows)
        tally.old tally.new }
{
    let first = from as usize;
    tally.add(
        cells,
        &columns.metrics_of(metric)[first..first + cells.len()],
    );
}

// Tells for each item what is kept of a cell.
fn tell(
    tallies: &[CellTallies],
    cell: usize,
    sums: &mut [i128],
    lows: &mut [i64],
    highs: &mut [i64],
)
    requires cell { (n : ℕ) × All (HasCells n) tallies.now × (cell < n) }
    requires sums { length sums.old ≡ length tallies.now }
    requires lows { length lows.old ≡ length tallies.now }
    requires highs { length highs.old ≡ length tallies.now }
    ensures { (i : ℕ) → i < length tallies.now
        → IsToldBy (slice_index_or sums.new i (pos 0)) (slice_index_or lows.new i (pos 0))
        (slice_index_or highs.new i (pos 0))
        (cell_tally (slice_index_or tallies.now i Nothing) cell) }
{
    'items: for i in 0..tallies.len() {
        let told = tallies[i].told(cell);
        sums[i] = told.sum;
        lows[i] = told.low;
        highs[i] = told.high;
    }
}
