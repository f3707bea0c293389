//! The bits of the rows that a span has.

ghost use Rattle.std.specs.Prelude.{◌≡◌, ℕ, if◌then◌else◌, ◌+◌, ◌<◌, ◌≤◌, false, IsTrue, length, map, filter, OnOk, slice_index, slice_set};
ghost use Rattle.std.specs.List.{items_where_true};
ghost use Rattle.cube_values.specs.Spans.{part_has, span_has_row};
ghost use Rattle.brick_store.specs.Cuts.{AreCleared, AreClearedFrom, part_has_row};
ghost use Rattle.brick_store.specs.Whole.{HaveCoordsFrom, row_with_coords};

use crate::scan::ROWS_AT_ONCE;
use brick_columns::Columns;
use cube_values::{Bits, Part, Span};
use std::alloc::AllocError;

/// Clears the bits of the rows that a span has not. It goes over the rows once for each dimension that the
/// span cuts, and skips words of bits that are 0. The list is lent.
pub fn clear_outside(
    offsets: &mut Vec<u32>,
    columns: &Columns,
    starts: &[u32],
    span: &Span,
    bits: &mut Bits,
) -> Result<(), AllocError>
    requires bits { length bits.old.bits ≡ length columns.now.rows }
    requires readable { HaveCoordsFrom starts.now columns.now }
    requires parts { length span.now.parts ≡ length starts.now }
    ensures long { length bits.new.bits ≡ length bits.old.bits }
    ensures left { OnOk result
        (items_where_true bits.new.bits (map (row_with_coords starts.now) columns.now.rows)
        ≡ filter (span_has_row span.now)
        (items_where_true bits.old.bits (map (row_with_coords starts.now) columns.now.rows))) }
{
    let at_once = columns.len().min(ROWS_AT_ONCE) as usize;
    offsets.resize(at_once, 0)?;
    let parts = span.parts.as_slice();
    'dims: for dim in 0..starts.len() {
        clear_dimension(
            columns,
            dim as u32,
            starts,
            &parts[dim],
            bits,
            offsets.as_mut_slice(),
        );
    }
    Ok(())
}

// Clears the bits of the rows whose coordinate in a dimension a part has not. The list is lent.
fn clear_dimension(
    columns: &Columns,
    dim: u32,
    starts: &[u32],
    part: &Part,
    bits: &mut Bits,
    offsets: &mut [u32],
)
    requires bits { length bits.old.bits ≡ length columns.now.rows }
    requires readable { HaveCoordsFrom starts.now columns.now }
    requires dim { dim < length starts.now }
    requires some { 0 < length columns.now.rows → 0 < length offsets.old }
    ensures { AreCleared (part_has_row part.now (slice_index starts.now dim) dim)
        columns.now.rows bits.old.bits bits.new.bits }
{
    if has_range(part, starts[dim as usize], columns.range(dim)) {
        let _rows = columns.len();
        return;
    }
    let mut at = 0;
    'chunks: while at < bits.len() {
        let from = bits.next(at, true);
        let n = (bits.len() - from).min(offsets.len() as u64);
        clear_chunk(
            columns,
            dim,
            starts,
            part,
            from,
            bits,
            &mut offsets[..n as usize],
        );
        at = from + n;
    }
}

// Whether a part is known to have the coordinates of a range from one on.
fn has_range(part: &Part, start: u32, range: u32) -> bool
    ensures { IsTrue result
        → (offset : ℕ) → offset < range → IsTrue (part_has part.now (start + offset)) }
{
    match part {
        Part::All => true,
        Part::Between(first, last) => {
            *first <= start && u64::from(start) + u64::from(range) <= u64::from(*last) + 1
        }
        Part::Listed(_) => false,
    }
}

// Clears the bits of the rows from one on, one for each item of a list that is lent, whose coordinate in a
// dimension a part has not.
fn clear_chunk(
    columns: &Columns,
    dim: u32,
    starts: &[u32],
    part: &Part,
    from: u64,
    bits: &mut Bits,
    offsets: &mut [u32],
)
    requires bits { length bits.old.bits ≡ length columns.now.rows }
    requires readable { HaveCoordsFrom starts.now columns.now }
    requires dim { dim < length starts.now }
    requires rows { from + length offsets.old ≤ length columns.now.rows }
    ensures { AreClearedFrom (part_has_row part.now (slice_index starts.now dim) dim)
        columns.now.rows from (from + length offsets.old) bits.old.bits bits.new.bits }
{
    let _rows = columns.len();
    columns.read_offsets(from, dim, offsets);
    let start = starts[dim as usize];
    'rows: for k in 0..offsets.len() {
        keep_bit(bits, from + k as u64, part.has(start + offsets[k]));
    }
}

// Clears a bit, unless its row stays.
fn keep_bit(bits: &mut Bits, i: u64, stays: bool)
    requires { i < length bits.old.bits }
    ensures { bits.new.bits ≡ if stays then bits.old.bits else slice_set bits.old.bits i false }
{
    if !stays {
        bits.set(i, false);
    }
}
