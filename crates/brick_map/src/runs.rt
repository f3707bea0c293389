//! A batch of rows, cut where the brick changes.

ghost use Rattle.std.specs.Prelude.{◌≡◌, ◌+◌, ◌^◌, ◌<◌, ◌≤◌, ◌↔◌, length, All, IsTrue, IfOk};
ghost use Rattle.cube_values.specs.Shapes.{IsSoundShape, IsSoundSize, bricks_of};
ghost use Rattle.cube_values.specs.Batches.{coded_row_at};
ghost use Rattle.brick_address.specs.Addresses.{brick_of, AreCoords};
ghost use Rattle.brick_map.specs.Batches.{IsRunFrom, AreRuns, AreRunsOver, RunsRiseFrom, range_starts, rows_for, run_at, runs_for};

use brick_address::brick_of;
use cube_values::{CodedRows, Shape, Size};
use std::alloc::{AllocError, Global};

/// Rows of a batch from one place up to another, all of one brick.
#[derive(Debug, Drop)]
pub struct BatchRun {
    pub number: u64,
    pub from: usize,
    pub to: usize,
}

/// The batch in runs of rows of one brick. It goes over the rows once.
pub fn runs_of(alloc: Global, shape: &Shape, batch: &CodedRows) -> Result<Vec<BatchRun>, AllocError>
    requires shape { IsSoundShape shape.now }
    requires coords { All (λ row. AreCoords shape.now.sizes row.coords) batch.now.rows }
    ensures { IfOk result (λ runs. AreRuns shape.now.sizes batch.now.rows 0 runs.items) }
{
    let mut runs = Vec::with_capacity(alloc, 1)?;
    let mut starts = Vec::new(alloc);
    let mut from = 0;
    'runs: while from < batch.len() {
        let run = next_run(shape, batch, from, &mut starts)?;
        from = run.to;
        runs.push(run)?;
    }
    Ok(runs)
}

// The run that begins at a row. The list is for the starts of its ranges, which the last row of a batch does
// without.
fn next_run(
    shape: &Shape,
    batch: &CodedRows,
    from: usize,
    starts: &mut Vec<u32>,
) -> Result<BatchRun, AllocError>
    requires shape { IsSoundShape shape.now }
    requires coords { All (λ row. AreCoords shape.now.sizes row.coords) batch.now.rows }
    requires there { from < length batch.now.rows }
    ensures { IfOk result (IsRunFrom shape.now.sizes batch.now.rows from) }
{
    if batch.len() - from == 1 {
        return Ok(last_row(shape, batch, from));
    }
    put_starts(shape.sizes.as_slice(), batch.coords_of(from), starts)?;
    Ok(run_from(shape, batch, from, starts.as_slice()))
}

// The run of the last row.
fn last_row(shape: &Shape, batch: &CodedRows, from: usize) -> BatchRun
    requires shape { IsSoundShape shape.now }
    requires coords { All (λ row. AreCoords shape.now.sizes row.coords) batch.now.rows }
    requires last { from + 1 ≡ length batch.now.rows }
    ensures { IsRunFrom shape.now.sizes batch.now.rows from result }
{
    BatchRun {
        number: number_at(shape, batch, from),
        from,
        to: batch.len(),
    }
}

// Leaves the starts of the ranges in which coordinates lie.
fn put_starts(sizes: &[Size], coords: &[u32], starts: &mut Vec<u32>) -> Result<(), AllocError>
    requires sound { All IsSoundSize sizes.now }
    ensures { IfOk result (λ _. starts.new.items ≡ range_starts sizes.now coords.now) }
{
    starts.clear();
    let mut sizes_left = sizes;
    let mut coords_left = coords;
    'dims: while let [size, sizes_rest @ ..] = sizes_left {
        let [coord, coords_rest @ ..] = coords_left else {
            return Ok(());
        };
        starts.push(*coord - *coord % size.range)?;
        sizes_left = sizes_rest;
        coords_left = coords_rest;
    }
    Ok(())
}

// The run that begins at a row, by the starts of the ranges in which that row lies: a row needs no
// division then to be seen in the same ranges.
fn run_from(shape: &Shape, batch: &CodedRows, from: usize, starts: &[u32]) -> BatchRun
    requires shape { IsSoundShape shape.now }
    requires coords { All (λ row. AreCoords shape.now.sizes row.coords) batch.now.rows }
    requires there { from < length batch.now.rows }
    requires starts { starts.now
        ≡ range_starts shape.now.sizes (coded_row_at batch.now.rows from).coords }
    ensures { IsRunFrom shape.now.sizes batch.now.rows from result }
{
    let number = number_at(shape, batch, from);
    let sizes = shape.sizes.as_slice();
    let count = batch.len();
    'rows: for to in from + 1..count {
        if !lie_in_ranges(sizes, starts, batch.coords_of(to)) {
            return BatchRun { number, from, to };
        }
    }
    BatchRun {
        number,
        from,
        to: count,
    }
}

// Whether coordinates lie in the ranges that begin at these starts.
fn lie_in_ranges(sizes: &[Size], starts: &[u32], coords: &[u32]) -> bool
    requires sound { All IsSoundSize sizes.now }
    requires starts { range_starts sizes.now starts.now ≡ starts.now }
    requires coords { AreCoords sizes.now coords.now }
    ensures { IsTrue result ↔ (range_starts sizes.now coords.now ≡ starts.now) }
{
    let mut sizes_left = sizes;
    let mut starts_left = starts;
    let mut coords_left = coords;
    'dims: while let [size, sizes_rest @ ..] = sizes_left {
        let [start, starts_rest @ ..] = starts_left else {
            return false;
        };
        let [coord, coords_rest @ ..] = coords_left else {
            return false;
        };
        if *coord < *start || *coord - *start >= size.range {
            return false;
        }
        sizes_left = sizes_rest;
        starts_left = starts_rest;
        coords_left = coords_rest;
    }
    true
}

// The number of the brick of a row.
fn number_at(shape: &Shape, batch: &CodedRows, row: usize) -> u64
    requires shape { IsSoundShape shape.now }
    requires coords { All (λ row. AreCoords shape.now.sizes row.coords) batch.now.rows }
    requires there { row < length batch.now.rows }
    ensures value { result ≡ brick_of shape.now.sizes (coded_row_at batch.now.rows row).coords }
    ensures within { result < bricks_of shape.now.sizes }
{
    brick_of(shape, batch.coords_of(row))
}

/// Whether the numbers of the runs rise, so that no brick has two.
pub fn do_rise(runs: &[BatchRun]) -> bool
    requires { All (λ run. run.number < 2 ^ 62) runs.now }
    ensures { IsTrue result → RunsRiseFrom 0 runs.now }
{
    let mut low = 0;
    'runs: for run in runs {
        if run.number < low {
            return false;
        }
        low = run.number + 1;
    }
    true
}

/// Room for the rows of a brick.
#[derive(Drop)]
pub struct Room {
    pub rows: u64,
    pub entries: u64,
}

/// Room for all rows of the brick of a run. Where a brick has two runs, it is room for the whole batch.
pub fn room_for(runs: &[BatchRun], i: usize, rows: usize, apart: bool) -> Room
    requires there { i < length runs.now }
    requires runs { AreRunsOver rows 0 runs.now }
    requires apart { IsTrue apart → RunsRiseFrom 0 runs.now }
    ensures rows { rows_for (run_at runs.now i).number runs.now ≤ result.rows }
    ensures entries { runs_for (run_at runs.now i).number runs.now ≤ result.entries }
{
    let run = &runs[i];
    if apart {
        return Room {
            rows: (run.to - run.from) as u64,
            entries: 1,
        };
    }
    Room {
        rows: rows as u64,
        entries: runs.len() as u64,
    }
}
