//! The cells of rows, numbered by their offsets in the dimensions of a group.

ghost use Rattle.std.specs.Prelude.{◌≡◌, ℕ, ◌+◌, ◌*◌, ◌^◌, ◌<◌, ◌≤◌, length, All, EachIndex, IfSome, slice_index};
ghost use Rattle.agg_fold.specs.Coded.{coded_key};
ghost use Rattle.brick_columns.specs.Rows.{BrickRow, IsBrickRow, row_at};
ghost use Rattle.brick_store.specs.Cells.{cell_count, cell_of, IsRowOfCell};
ghost use Rattle.brick_store.specs.Whole.{coords_at_offsets};

use brick_columns::Columns;

/// How many cells a group has, None where they are more than `most` or a range has no offset.
pub fn cell_count(columns: &Columns, group: &[u32], most: u64) -> Option<u64>
    requires dims { All (λ dim. dim < length columns.now.layout.ranges) group.now }
    requires most { 1 ≤ most }
    ensures value { IfSome result (λ n. n ≡ cell_count columns.now.layout.ranges group.now) }
    ensures few { IfSome result (λ n. n ≤ most) }
    ensures some { IfSome result
        (λ n. All (λ dim. 0 < slice_index columns.now.layout.ranges dim) group.now) }
{
    let mut cells: u64 = 1;
    'dims: for done in 0..group.len() {
        let range = u64::from(columns.range(group[group.len() - 1 - done]));
        if range == 0 || cells > most / range {
            return None;
        }
        cells *= range;
    }
    Some(cells)
}

/// Writes the cell of each row from one on, one row for each item of a list. The other list is lent.
pub fn number_cells(
    columns: &Columns,
    group: &[u32],
    from: u64,
    cells: &mut [u32],
    offsets: &mut [u32],
)
    requires rows { from + length cells.old ≤ length columns.now.rows }
    requires as_long { length offsets.old ≡ length cells.old }
    requires sound { All (IsBrickRow columns.now.layout) columns.now.rows }
    requires dims { All (λ dim. dim < length columns.now.layout.ranges) group.now }
    requires some { All (λ dim. 0 < slice_index columns.now.layout.ranges dim) group.now }
    requires few { cell_count columns.now.layout.ranges group.now < 2 ^ 32 }
    ensures { EachIndex cells.new (λ k. slice_index cells.new k
        ≡ cell_of columns.now.layout.ranges group.now (row_at columns.now.rows (from + k))) }
{
    let dims = group.len();
    if dims == 0 {
        cells.fill(0);
        return;
    }
    columns.read_offsets(from, group[dims - 1], cells);
    'dims: for done in 1..group.len() {
        let dim = group[group.len() - 1 - done];
        columns.read_offsets(from, dim, offsets);
        join_offsets(cells, offsets, columns.range(dim));
    }
}

// Numbers cells by an offset more.
fn join_offsets(cells: &mut [u32], offsets: &[u32], range: u32)
    requires long { length offsets.now ≡ length cells.old }
    requires small { (k : ℕ) → k < length cells.old
        → slice_index offsets.now k + range * slice_index cells.old k < 2 ^ 32 }
    ensures { (k : ℕ) → k < length cells.old → slice_index cells.new k
        ≡ slice_index offsets.now k + range * slice_index cells.old k }
{
    'rows: for i in 0..cells.len() {
        cells[i] = offsets[i] + range * cells[i];
    }
}

/// Writes the key of a cell that has rows.
pub fn write_key(columns: &Columns, starts: &[u32], group: &[u32], cell: u32, key: &mut [u32])
    requires starts { length starts.now ≡ length columns.now.layout.ranges }
    requires long { length key.old ≡ length group.now }
    requires dims { All (λ dim. dim < length columns.now.layout.ranges) group.now }
    requires some { (row : BrickRow)
        × IsRowOfCell columns.now.layout starts.now group.now cell row }
    ensures { (row : BrickRow) → IsRowOfCell columns.now.layout starts.now group.now cell row
        → key.new ≡ coded_key group.now (coords_at_offsets starts.now row.offsets) }
{
    let mut left = cell;
    'dims: for i in 0..group.len() {
        let dim = group[i];
        let range = columns.range(dim);
        key[i] = starts[dim as usize] + left % range;
        left /= range;
    }
}
