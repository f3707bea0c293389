//! The fold of chunks of rows by counts and sums side by side in one word for each cell.

ghost use Rattle.std.specs.Prelude.{◌≡◌, ℕ, ◌+◌, ◌^◌, ◌<◌, ◌≤◌, ◌↔◌, ◌+ℤ◌, ◌∷◌, [], pos, length, All, IsTrue, IfSome, slice_index, slice_index_or};
ghost use Rattle.agg_fold.specs.Tallies.{metric_asked, IsSmall};
ghost use Rattle.agg_fold.specs.declared.tally.Tally.TheVariants.{Total};
ghost use Rattle.packed_words.specs.Counted.{counted_in, summed_in};
ghost use Rattle.packed_words.specs.declared.counted.TheConstants.{MOST_COUNTED, NOTHING_COUNTED};
ghost use Rattle.brick_store.specs.Cells.{cell_count, CanFold, CanHold, HasCells, HasSmallTallies, HoldMore, columns_between};
ghost use Rattle.brick_store.specs.CountedChunks.{CanCount, SumsAtMost, TakesSums};
ghost use Rattle.brick_store.specs.declared.cell_tallies.CellTallies.TheVariants.{Nothing};

use crate::cell_tallies::CellTallies;
use crate::dense::Dense;
use brick_columns::{COUNTED_CELLS, Columns};
use cube_values::{BoundItem, BoundQuery};
use packed_words::{MOST_COUNTED, NOTHING_COUNTED, counted_in, summed_in};

/// The dimension that rows are counted by, and the metric that is summed.
#[derive(Clone, Copy, Debug)]
pub struct CountedBy {
    pub dim: u32,
    pub metric: u32,
}

/// What the rows of columns can be counted by in words, if they can.
pub fn counted_by(columns: &Columns, query: &BoundQuery) -> Option<CountedBy>
    requires { CanFold query.now columns.now }
    ensures { IfSome result (λ by. CanCount query.now columns.now by.dim by.metric) }
{
    let metric = first_metric(query.items.as_slice())?;
    if metric as usize >= columns.width() || !sum_at_most(query.items.as_slice(), metric) {
        return None;
    }
    let dim = one_dimension(query.group.as_slice())?;
    if columns.range(dim) as usize > COUNTED_CELLS || !columns.has_short_metrics() {
        return None;
    }
    Some(CountedBy { dim, metric })
}

// The dimension of a group of one.
fn one_dimension(group: &[u32]) -> Option<u32>
    ensures { IfSome result (λ dim. group.now ≡ dim ∷ []) }
{
    if group.len() == 1 {
        Some(group[0])
    } else {
        None
    }
}

// The first metric that items ask for. Nothing rests on it: whether it serves is asked of all items.
fn first_metric(items: &[BoundItem]) -> Option<u32> {
    items.iter().find_map(|item| metric_of(*item))
}

// The metric that an item asks for.
fn metric_of(item: BoundItem) -> Option<u32>
    ensures { result ≡ metric_asked item }
{
    match item {
        BoundItem::Group(_) | BoundItem::Count => None,
        BoundItem::Sum(metric) => Some(metric),
        BoundItem::Min(metric) => Some(metric),
        BoundItem::Max(metric) => Some(metric),
        BoundItem::Avg(metric) => Some(metric),
    }
}

// Whether items ask for the sum of one metric at most.
fn sum_at_most(items: &[BoundItem], metric: u32) -> bool
    ensures { IsTrue result ↔ All (SumsAtMost metric) items.now }
{
    items.iter().all(|item| sums_at_most(*item, metric))
}

// Whether an item asks for the sum of one metric, or for no metric.
fn sums_at_most(item: BoundItem, metric: u32) -> bool
    ensures { IsTrue result ↔ SumsAtMost metric item }
{
    match item {
        BoundItem::Group(_) | BoundItem::Count => true,
        BoundItem::Sum(m) => m == metric,
        BoundItem::Avg(m) => m == metric,
        BoundItem::Min(_) | BoundItem::Max(_) => false,
    }
}

impl Dense {
    /// Adds rows from one on, one for each item of the lists that are lent.
    pub fn add_part(
        &mut self,
        columns: &Columns,
        query: &BoundQuery,
        from: u64,
        cells: &mut [u32],
        offsets: &mut [u32],
    )
        requires rows { from + length cells.old ≤ length columns.now.rows }
        requires as_long { length offsets.old ≡ length cells.old }
        requires fold { CanFold query.now columns.now }
        requires held { CanHold columns.now.layout.ranges query.now
            (cell_count columns.now.layout.ranges query.now.group) (length cells.old) self.old }
        ensures { HoldMore columns.now.layout.ranges query.now
            (cell_count columns.now.layout.ranges query.now.group)
            (columns_between from (from + length cells.old) columns.now.rows) self.old self.new }
    {
        let rows = cells.len();
        if rows > 0 && rows <= MOST_COUNTED {
            if let Some(by) = counted_by(columns, query) {
                return self.add_counted(columns, query, from, rows, by);
            }
        }
        self.add_chunk(columns, query, from, cells, offsets);
    }

    // Adds so many rows from one on, which can be counted in words.
    fn add_counted(
        &mut self,
        columns: &Columns,
        query: &BoundQuery,
        from: u64,
        rows: usize,
        by: CountedBy,
    )
        requires some { 0 < rows }
        requires few { rows ≤ MOST_COUNTED }
        requires rows { from + rows ≤ length columns.now.rows }
        requires fold { CanFold query.now columns.now }
        requires by { CanCount query.now columns.now by.dim by.metric }
        requires held { CanHold columns.now.layout.ranges query.now
            (cell_count columns.now.layout.ranges query.now.group) rows self.old }
        ensures { HoldMore columns.now.layout.ranges query.now
            (cell_count columns.now.layout.ranges query.now.group)
            (columns_between from (from + rows) columns.now.rows) self.old self.new }
    {
        let mut words = [0; COUNTED_CELLS];
        reset_words(&mut words);
        let first = from as usize;
        let numbers = &columns.metrics_of(by.metric)[first..first + rows];
        columns.count_in_cells(from, by.dim, numbers, &mut words);
        take_counts(self.counts.as_mut_slice(), &words);
        take_each(self.tallies.as_mut_slice(), &words);
    }
}

// Writes words that have counted nothing.
fn reset_words(words: &mut [u64])
    ensures long { length words.new ≡ length words.old }
    ensures nothing { All (λ word. word ≡ NOTHING_COUNTED) words.new }
{
    words.fill(NOTHING_COUNTED);
}

// Adds what words have counted to the counts of cells.
fn take_counts(counts: &mut [u64], words: &[u64])
    requires cells { length counts.old ≤ length words.now }
    requires room { (cell : ℕ) → cell < length counts.old
        → slice_index counts.old cell + counted_in (slice_index words.now cell) < 2 ^ 64 }
    ensures { (cell : ℕ) → cell < length counts.old → slice_index counts.new cell
        ≡ slice_index counts.old cell + counted_in (slice_index words.now cell) }
{
    'cells: for cell in 0..counts.len() {
        counts[cell] += counted_in(words[cell]);
    }
}

// Adds what words have summed to what each item has of cells.
fn take_each(tallies: &mut [CellTallies], words: &[u64])
    requires cells { (n : ℕ) × All (HasCells n) tallies.old × (n ≤ length words.now) }
    requires small { All HasSmallTallies tallies.old }
    ensures { (i : ℕ) → i < length tallies.old → TakesSums words.now
        (slice_index_or tallies.old i Nothing) (slice_index_or tallies.new i Nothing) }
{
    for tally in tallies.iter_mut() {
        take_sums(tally, words);
    }
}

// Adds what words have summed to what an item has of cells, where it keeps sums.
fn take_sums(tally: &mut CellTallies, words: &[u64])
    requires cells { (n : ℕ) × HasCells n tally.old × (n ≤ length words.now) }
    requires small { HasSmallTallies tally.old }
    ensures { TakesSums words.now tally.old tally.new }
{
    match tally {
        CellTallies::Nothing | CellTallies::Lows(_) | CellTallies::Highs(_) => {}
        CellTallies::Sums(sums) => add_summed(sums.as_mut_slice(), words),
    }
}

// Adds what words have summed to sums.
fn add_summed(sums: &mut [i128], words: &[u64])
    requires cells { length sums.old ≤ length words.now }
    requires small { All (λ sum. IsSmall (Total sum)) sums.old }
    ensures { (cell : ℕ) → cell < length sums.old → slice_index_or sums.new cell (pos 0)
        ≡ slice_index_or sums.old cell (pos 0) +ℤ summed_in (slice_index words.now cell) }
{
    'cells: for cell in 0..sums.len() {
        sums[cell] += i128::from(summed_in(words[cell]));
    }
}
