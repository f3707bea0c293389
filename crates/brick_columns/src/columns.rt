//! The columns of a brick, which are whole rows after every call.

ghost use Rattle.std.specs.Prelude.{◌≡◌, ℕ, List, ◌+◌, ◌*◌, ◌-◌, ◌^◌, ◌<◌, ◌≤◌, [], ◌∷◌, ◌++◌, length, map, min, slice_index, All, EachIndex, IsTrue, IsOk, IfOk, OnOk, OnErr};
ghost use Rattle.std.specs.List.{AllZip, items_where_true};
ghost use Rattle.cube_values.specs.Rooms.{grown_room};
ghost use Rattle.cube_values.specs.Shapes.{IsSoundShape};
ghost use Rattle.packed_words.specs.Counted.{IsShort, AreCounted};
ghost use Rattle.packed_words.specs.Rows.{AreWords};
ghost use Rattle.packed_words.specs.declared.counted.TheConstants.{MOST_COUNTED, NOTHING_COUNTED};
ghost use Rattle.brick_columns.specs.Rows.{layout_of, IsBrickRow, IsWidth, LiesFrom, HasShortMetrics, row_at, offset_row, offset_at, metric_at};
ghost use Rattle.cube_values.specs.Batches.{rows_between};

use crate::lists::{all_short, empty_lists, keep_each, push_each, reserve_each};
use cube_values::{Bits, CodedRows, Shape, Size, grown_room};
use packed_words::PackedRows;
use std::alloc::{AllocError, Global};
use std::marker::Model;

/// So many offsets a dimension may have at most whose rows are counted by them in words.
pub const COUNTED_CELLS: usize = 64;

/// The rows of a brick: in each dimension an offset below the range size, and the metrics. The offsets are
/// packed row by row in words of 64 bits, each in no more bits than its range needs, none where that is 1.
/// The values of a metric are one list, and the columns know whether all of them were short.
#[derive(Debug, Drop)]
pub struct Columns {
    ranges: Vec<u32>,
    offsets: PackedRows,
    metrics: Vec<Vec<i64>>,
    rows: u64,
    room: u64,
    short: bool,
}

impl Model for Columns {
    ghost use Rattle.brick_columns.specs.Rows.{BrickRows};

    ghost Value = { BrickRows };

    ghost use Rattle.brick_columns.specs.Whole.{contract_view, IsWhole};

    ghost view = { contract_view };

    ghost invariant = { IsWhole };
}

impl Columns {
    /// Columns without rows for a shape with so many metrics.
    /// It is an error where memory is wanted.
    pub fn new(alloc: Global, shape: &Shape, metrics: u32) -> Result<Columns, AllocError>
        requires { IsSoundShape shape.now }
        ensures layout { IfOk result (λ made. made.layout ≡ layout_of shape.now metrics) }
        ensures rows { IfOk result (λ made. made.rows ≡ []) }
        ensures spare { IfOk result (λ made. made.spare ≡ 0) }
    {
        let ranges = ranges_of(alloc, shape.sizes.as_slice())?;
        let widths = widths_of(alloc, ranges.as_slice())?;
        Ok(Columns {
            ranges,
            offsets: PackedRows::new(alloc, widths),
            metrics: empty_lists(alloc, metrics as usize)?,
            rows: 0,
            room: 0,
            short: true,
        })
    }

    /// Makes room for `n` more rows at least. Where memory is wanted nothing changes; where there is room
    /// already, none is. Room that grows becomes twice as large.
    pub fn reserve(&mut self, n: u64) -> Result<(), AllocError>
        ensures layout { self.new.layout ≡ self.old.layout }
        ensures rows { self.new.rows ≡ self.old.rows }
        ensures room { OnOk result (n ≤ self.new.spare) }
        ensures kept { self.old.spare ≤ self.new.spare }
        ensures same { OnErr result (self.new ≡ self.old) }
        ensures there { n ≤ self.old.spare → IsOk result }
        ensures enough { n ≤ self.old.spare → self.new ≡ self.old }
        ensures grown { OnOk result (length self.new.rows + self.new.spare
            ≡ grown_room (length self.old.rows + self.old.spare) (length self.old.rows + n)) }
    {
        if self.room - self.rows < n {
            let room = room_with(self.rows, self.room, n)?;
            self.offsets.reserve(room)?;
            reserve_each(self.metrics.as_mut_slice(), (room - self.rows) as usize)?;
            self.room = room;
        }
        Ok(())
    }

    /// Puts a row at the end, in room that there is. It takes no memory and cannot fail.
    pub fn push_row(&mut self, offsets: &[u32], metrics: &[i64])
        requires room { 1 ≤ self.old.spare }
        requires offsets { AllZip ◌<◌ offsets.now self.old.layout.ranges }
        requires metrics { length metrics.now ≡ self.old.layout.metrics }
        ensures layout { self.new.layout ≡ self.old.layout }
        ensures rows { self.new.rows
            ≡ self.old.rows ++ record { offsets = offsets.now; metrics = metrics.now } ∷ [] }
        ensures spare { self.new.spare + 1 ≡ self.old.spare }
    {
        self.offsets.push(offsets);
        push_each(self.metrics.as_mut_slice(), metrics);
        self.rows += 1;
        self.short = all_short(self.short, metrics);
    }

    /// Puts the rows of a batch from one place up to another at the end, in room that there is. `starts` has
    /// the coordinate of offset 0 in each dimension. It takes no memory and cannot fail.
    pub fn push_rows(&mut self, batch: &CodedRows, from: usize, to: usize, starts: &[u32])
        requires order { from ≤ to }
        requires within { to ≤ length batch.now.rows }
        requires room { to - from ≤ self.old.spare }
        requires rows { All (LiesFrom self.old.layout starts.now)
            (rows_between from to batch.now.rows) }
        ensures layout { self.new.layout ≡ self.old.layout }
        ensures rows { self.new.rows
            ≡ self.old.rows ++ map (offset_row starts.now) (rows_between from to batch.now.rows) }
        ensures spare { self.new.spare + (to - from) ≡ self.old.spare }
    {
        'rows: for i in from..to {
            self.push_from(starts, batch.coords_of(i), batch.metrics_of(i));
        }
    }

    // Puts a row at the end by its coordinates.
    fn push_from(&mut self, starts: &[u32], coords: &[u32], metrics: &[i64])
        requires room { 1 ≤ self.old.spare }
        requires row { LiesFrom self.old.layout starts.now
            (record { coords = coords.now; metrics = metrics.now }) }
        ensures layout { self.new.layout ≡ self.old.layout }
        ensures rows { self.new.rows ≡ self.old.rows
            ++ offset_row starts.now (record { coords = coords.now; metrics = metrics.now }) ∷ [] }
        ensures spare { self.new.spare + 1 ≡ self.old.spare }
    {
        self.offsets.push_differences(coords, starts);
        push_each(self.metrics.as_mut_slice(), metrics);
        self.rows += 1;
        self.short = all_short(self.short, metrics);
    }

    /// Leaves the rows whose bit is set, in order, with the room that there was. It takes no memory and goes
    /// once over the words and over each list.
    pub fn keep(&mut self, bits: &Bits)
        requires { length bits.now.bits ≡ length self.old.rows }
        ensures layout { self.new.layout ≡ self.old.layout }
        ensures rows { self.new.rows ≡ items_where_true bits.now.bits self.old.rows }
        ensures room { length self.new.rows + self.new.spare
            ≡ length self.old.rows + self.old.spare }
        ensures spare { self.old.spare ≤ self.new.spare }
    {
        self.offsets.keep(bits);
        keep_each(self.metrics.as_mut_slice(), bits);
        self.rows = bits.ones();
    }

    /// How many rows there are. Each is a row of the layout.
    pub fn len(&self) -> u64
        ensures len { result ≡ length self.now.rows }
        ensures sound { All (IsBrickRow self.now.layout) self.now.rows }
    {
        self.rows
    }

    /// How many rows there is memory for.
    pub fn room(&self) -> u64
        ensures { result ≡ length self.now.rows + self.now.spare }
    {
        self.room
    }

    /// How many metrics a row has.
    pub fn width(&self) -> usize
        ensures { result ≡ self.now.layout.metrics }
    {
        self.metrics.len()
    }

    /// The offset of a row in a dimension.
    pub fn offset(&self, row: u64, dim: u32) -> u32
        requires row { row < length self.now.rows }
        requires dim { dim < length self.now.layout.ranges }
        ensures { result ≡ offset_at dim (row_at self.now.rows row) }
    {
        self.offsets.number(row, dim as usize)
    }

    /// Writes the offsets of the rows from one on in a dimension over the items of a list, one row for each.
    pub fn read_offsets(&self, from: u64, dim: u32, offsets: &mut [u32])
        requires rows { from + length offsets.old ≤ length self.now.rows }
        requires dim { dim < length self.now.layout.ranges }
        ensures { EachIndex offsets.new
            (λ k. slice_index offsets.new k ≡ offset_at dim (row_at self.now.rows (from + k))) }
    {
        self.offsets.read_numbers(from, dim as usize, offsets);
    }

    /// Counts and sums numbers in words that have counted nothing. The cell of each is the offset of its row in a
    /// dimension of few offsets, of the rows from one on.
    pub fn count_in_cells(&self, from: u64, dim: u32, numbers: &[i64], sums: &mut [u64])
        requires some { 0 < length numbers.now }
        requires rows { from + length numbers.now ≤ length self.now.rows }
        requires dim { dim < length self.now.layout.ranges }
        requires range { slice_index self.now.layout.ranges dim ≤ COUNTED_CELLS }
        requires cells { COUNTED_CELLS ≤ length sums.old }
        requires few { length numbers.now ≤ MOST_COUNTED }
        requires short { All IsShort numbers.now }
        requires nothing { All (λ sum. sum ≡ NOTHING_COUNTED) sums.old }
        ensures long { length sums.new ≡ length sums.old }
        ensures counted { (cells : List ℕ) → length cells ≡ length numbers.now
            → EachIndex cells
            (λ k. slice_index cells k ≡ offset_at dim (row_at self.now.rows (from + k)))
            → AreCounted cells numbers.now sums.new }
    {
        self.offsets
            .count_in_cells(from, dim as usize, numbers, sums);
    }

    /// The range size of a dimension.
    pub fn range(&self, dim: u32) -> u32
        requires { dim < length self.now.layout.ranges }
        ensures { result ≡ slice_index self.now.layout.ranges dim }
    {
        self.ranges[dim as usize]
    }

    /// A metric of a row.
    pub fn metric(&self, row: u64, m: u32) -> i64
        requires row { row < length self.now.rows }
        requires metric { m < self.now.layout.metrics }
        ensures { result ≡ metric_at m (row_at self.now.rows row) }
    {
        self.metrics_of(m)[row as usize]
    }

    /// Whether it is known that the metrics of all rows are short.
    pub fn has_short_metrics(&self) -> bool
        ensures { IsTrue result → All HasShortMetrics self.now.rows }
    {
        self.short
    }

    /// The words that hold the offsets: dimension i of each row in the least number of bits in which each
    /// offset of its range can be written, the first dimension first and the lowest bit first.
    pub fn words(&self) -> &[u64]
        ensures { (widths : List ℕ) → AllZip IsWidth self.now.layout.ranges widths
            → AreWords widths (map (λ row. row.offsets) self.now.rows) result.now }
    {
        self.offsets.words()
    }

    /// The values of a metric in all rows.
    pub fn metrics_of(&self, m: u32) -> &[i64]
        requires { m < self.now.layout.metrics }
        ensures { result.now ≡ map (metric_at m) self.now.rows }
    {
        self.metrics[m as usize].as_slice()
    }
}

// The room to ask for, where `n` more rows are wanted.
fn room_with(rows: u64, room: u64, n: u64) -> Result<u64, AllocError>
    ensures grown { IfOk result (λ asked. asked ≡ grown_room room (rows + n)) }
    ensures enough { IfOk result (λ asked. rows + n ≤ asked) }
    ensures kept { IfOk result (λ asked. room ≤ asked) }
{
    let least = rows.checked_add(n).ok_or(AllocError)?;
    Ok(grown_room(room, least))
}

// The range size of each dimension.
fn ranges_of(alloc: Global, sizes: &[Size]) -> Result<Vec<u32>, AllocError>
    ensures { IfOk result (λ ranges. ranges.items ≡ map (λ size. size.range) sizes.now) }
{
    sizes.iter().map(|size| size.range).collect(alloc)
}

// The least width of each range.
fn widths_of(alloc: Global, ranges: &[u32]) -> Result<Vec<u64>, AllocError>
    ensures { IfOk result (λ widths. AllZip IsWidth ranges.now widths.items) }
{
    let mut widths = Vec::with_capacity(alloc, ranges.len())?;
    for range in ranges {
        widths.push_reserved(width_of(*range));
    }
    Ok(widths)
}

// The least number of bits in which each number below `range` can be written.
fn width_of(range: u32) -> u64
    ensures { IsWidth range result }
{
    'bits: for width in 0..32 {
        if u64::from(range) <= 1 << width {
            return width;
        }
    }
    32
}
