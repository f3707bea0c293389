//! The rows of a brick by their coordinates, one at a time.

ghost use Rattle.std.specs.Prelude.{◌≡◌, ◌^◌, ◌<◌, length};
ghost use Rattle.brick_columns.specs.Rows.{IsBrickRow, row_at};
ghost use Rattle.brick_store.specs.Whole.{HaveCoordsFrom, coords_at_offsets};

use brick_columns::Columns;

/// Writes the coordinates and the metrics of a row over those of another.
pub fn read_row(
    columns: &Columns,
    starts: &[u32],
    row: u64,
    coords: &mut [u32],
    metrics: &mut [i64],
)
    requires row { row < length columns.now.rows }
    requires readable { HaveCoordsFrom starts.now columns.now }
    requires coords_long { length coords.old ≡ length starts.now }
    requires metrics_long { length metrics.old ≡ columns.now.layout.metrics }
    ensures coords { coords.new ≡ coords_at_offsets starts.now
        (row_at columns.now.rows row).offsets }
    ensures metrics { metrics.new ≡ (row_at columns.now.rows row).metrics }
    ensures coords_long { length coords.new ≡ length coords.old }
    ensures metrics_long { length metrics.new ≡ length metrics.old }
{
    read_coords(columns, starts, row, coords);
    read_metrics(columns, row, metrics);
}

// Writes the coordinates of a row.
fn read_coords(columns: &Columns, starts: &[u32], row: u64, coords: &mut [u32])
    requires row { row < length columns.now.rows }
    requires readable { HaveCoordsFrom starts.now columns.now }
    requires long { length coords.old ≡ length starts.now }
    ensures value { coords.new ≡ coords_at_offsets starts.now
        (row_at columns.now.rows row).offsets }
    ensures long { length coords.new ≡ length coords.old }
{
    'dims: for dim in 0..starts.len() {
        coords[dim] = starts[dim] + columns.offset(row, dim as u32);
    }
}

// Writes the metrics of a row.
fn read_metrics(columns: &Columns, row: u64, metrics: &mut [i64])
    requires row { row < length columns.now.rows }
    requires long { length metrics.old ≡ columns.now.layout.metrics }
    requires wide { columns.now.layout.metrics < 2 ^ 32 }
    requires fits { IsBrickRow columns.now.layout (row_at columns.now.rows row) }
    ensures value { metrics.new ≡ (row_at columns.now.rows row).metrics }
    ensures long { length metrics.new ≡ length metrics.old }
{
    for m in 0..metrics.len() {
        metrics[m] = columns.metric(row, m as u32);
    }
}
