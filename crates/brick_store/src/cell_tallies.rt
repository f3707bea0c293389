//! Arrays of what cells have of an item's numbers.

ghost use Rattle.std.specs.Prelude.{◌≡◌, ℕ, ◌+ℤ◌, ◌<◌, [], pos, length, fold, replicate, All, OnOk, slice_index_or};
ghost use Rattle.std.specs.Int.{int_min, int_max};
ghost use Rattle.agg_fold.specs.Tallies.{tally_of, tally_with, IsSmall};
ghost use Rattle.agg_fold.specs.declared.tally.Tally.TheVariants.{Total};
ghost use Rattle.packed_words.specs.Counted.{numbers_in};
ghost use Rattle.brick_store.specs.Cells.{cell_tally, HasCells, HasSmallTallies, IsToldBy};

use cube_values::BoundItem;
use std::alloc::{AllocError, Global};

/// What each cell has of an item's numbers.
#[derive(Debug, Drop)]
pub enum CellTallies {
    /// Nothing: the item asks for no metric.
    Nothing,
    /// The sum of each cell.
    Sums(Vec<i128>),
    /// The least number of each cell, and the greatest of 64 bits where it has no row.
    Lows(Vec<i64>),
    /// The greatest number of each cell, and the least of 64 bits where it has no row.
    Highs(Vec<i64>),
}

/// A sum, a least and a greatest number, of which one counts.
#[derive(Clone, Copy, Debug)]
pub struct Told {
    pub sum: i128,
    pub low: i64,
    pub high: i64,
}

impl CellTallies {
    /// Leaves what so many cells without rows have of an item's numbers. An array of the kind that the item
    /// wants keeps its memory.
    pub fn reset(&mut self, alloc: Global, item: BoundItem, cells: usize) -> Result<(), AllocError>
        ensures long { OnOk result (HasCells cells self.new) }
        ensures empty { OnOk result
            ((cell : ℕ) → cell < cells → cell_tally self.new cell ≡ tally_of [] item) }
    {
        match item {
            BoundItem::Group(_) | BoundItem::Count => *self = CellTallies::Nothing,
            BoundItem::Sum(_) | BoundItem::Avg(_) => {
                if let CellTallies::Sums(sums) = self {
                    return fill(sums, cells, 0);
                }
                *self = CellTallies::Sums(vec![in alloc; 0; cells]?);
            }
            BoundItem::Min(_) => {
                if let CellTallies::Lows(lows) = self {
                    return fill(lows, cells, i64::MAX);
                }
                *self = CellTallies::Lows(vec![in alloc; i64::MAX; cells]?);
            }
            BoundItem::Max(_) => {
                if let CellTallies::Highs(highs) = self {
                    return fill(highs, cells, i64::MIN);
                }
                *self = CellTallies::Highs(vec![in alloc; i64::MIN; cells]?);
            }
        }
        Ok(())
    }

    /// Adds numbers, each to the cell that stands at its place.
    pub fn add(&mut self, cells: &[u32], numbers: &[i64])
        requires long { length cells.now ≡ length numbers.now }
        requires within { (n : ℕ) × HasCells n self.old × All (λ cell. cell < n) cells.now }
        requires small { HasSmallTallies self.old }
        ensures long { (n : ℕ) → HasCells n self.old → HasCells n self.new }
        ensures more { (n cell : ℕ) → HasCells n self.old → cell < n → cell_tally self.new cell
            ≡ fold tally_with (cell_tally self.old cell) (numbers_in cell cells.now numbers.now) }
    {
        match self {
            CellTallies::Nothing => {}
            CellTallies::Sums(sums) => add_sums(sums.as_mut_slice(), cells, numbers),
            CellTallies::Lows(lows) => lower(lows.as_mut_slice(), cells, numbers),
            CellTallies::Highs(highs) => raise(highs.as_mut_slice(), cells, numbers),
        }
    }

    /// What is kept of a cell.
    pub fn told(&self, cell: usize) -> Told
        requires { (n : ℕ) × HasCells n self.now × (cell < n) }
        ensures { IsToldBy result.sum result.low result.high (cell_tally self.now cell) }
    {
        let mut told = Told {
            sum: 0,
            low: 0,
            high: 0,
        };
        match self {
            CellTallies::Nothing => {}
            CellTallies::Sums(sums) => told.sum = sums[cell],
            CellTallies::Lows(lows) => told.low = lows[cell],
            CellTallies::Highs(highs) => told.high = highs[cell],
        }
        told
    }
}

// Leaves so many equal numbers.
fn fill<T: Copy>(list: &mut Vec<T>, count: usize, number: T) -> Result<(), AllocError>
    ensures { OnOk result (list.new.items ≡ replicate count number) }
{
    list.clear();
    list.resize(count, number)
}

// Adds numbers to the sums of their cells.
fn add_sums(sums: &mut [i128], cells: &[u32], numbers: &[i64])
    requires long { length cells.now ≡ length numbers.now }
    requires within { All (λ cell. cell < length sums.old) cells.now }
    requires small { All (λ sum. IsSmall (Total sum)) sums.old }
    ensures { (cell : ℕ) → cell < length sums.old → slice_index_or sums.new cell (pos 0)
        ≡ fold ◌+ℤ◌ (slice_index_or sums.old cell (pos 0))
        (numbers_in cell cells.now numbers.now) }
{
    if sums.len() == 1 {
        sums[0] = sum_with(sums[0], numbers);
        return;
    }
    'rows: for i in 0..cells.len() {
        sums[cells[i] as usize] += i128::from(numbers[i]);
    }
}

// A sum with more numbers.
fn sum_with(sum: i128, numbers: &[i64]) -> i128
    requires { IsSmall (Total sum) }
    ensures { result ≡ fold ◌+ℤ◌ sum numbers.now }
{
    let mut total = sum;
    'rows: for i in 0..numbers.len() {
        total += i128::from(numbers[i]);
    }
    total
}

// Takes numbers into the least numbers of their cells.
fn lower(lows: &mut [i64], cells: &[u32], numbers: &[i64])
    requires long { length cells.now ≡ length numbers.now }
    requires within { All (λ cell. cell < length lows.old) cells.now }
    ensures { (cell : ℕ) → cell < length lows.old → slice_index_or lows.new cell (pos 0)
        ≡ fold int_min (slice_index_or lows.old cell (pos 0))
        (numbers_in cell cells.now numbers.now) }
{
    'rows: for i in 0..cells.len() {
        let cell = cells[i] as usize;
        lows[cell] = lows[cell].min(numbers[i]);
    }
}

// Takes numbers into the greatest numbers of their cells.
fn raise(highs: &mut [i64], cells: &[u32], numbers: &[i64])
    requires long { length cells.now ≡ length numbers.now }
    requires within { All (λ cell. cell < length highs.old) cells.now }
    ensures { (cell : ℕ) → cell < length highs.old → slice_index_or highs.new cell (pos 0)
        ≡ fold int_max (slice_index_or highs.old cell (pos 0))
        (numbers_in cell cells.now numbers.now) }
{
    'rows: for i in 0..cells.len() {
        let cell = cells[i] as usize;
        highs[cell] = highs[cell].max(numbers[i]);
    }
}
