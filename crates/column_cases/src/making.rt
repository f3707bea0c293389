//! Columns for the tests, and rows that are put to them one by one.

ghost use Rattle.std.specs.Prelude.{◌≡◌, ◌<◌, ◌≤◌, ◌^◌, IfSome, IsTrue, All};
ghost use Rattle.std.specs.List.{AllZip};
ghost use Rattle.cube_values.specs.Shapes.{bricks_of, IsSoundSize};

use crate::tables::{numbers_of, values_of};
use brick_columns::Columns;
use cube_values::{Shape, Size, Sizes};
use std::alloc::Global;
use std::process::Abort;

// The number of bricks, where each size is sound and the bricks are few enough.
fn sound_bricks(sizes: &[Size]) -> Option<u64>
    ensures sound { IfSome result (λ n. All IsSoundSize sizes.now) }
    ensures bricks { IfSome result (λ n. n ≡ bricks_of sizes.now) }
    ensures most { IfSome result (λ n. n ≤ 2 ^ 62) }
{
    let [size, rest @ ..] = sizes else {
        return Some(1);
    };
    let bricks = sound_bricks(rest)?;
    if size.range == 0 || size.range > size.cardinality {
        return None;
    }
    let ranges = (u64::from(size.cardinality) + u64::from(size.range - 1)) / u64::from(size.range);
    let product = ranges.checked_mul(bricks)?;
    if product <= 1 << 62 {
        Some(product)
    } else {
        None
    }
}

/// Columns for dimensions of one range each.
pub fn columns_for(rt: &impl Abort, alloc: Global, ranges: &[u32], metrics: u32) -> Columns
    ensures { result.layout ≡ record { ranges = ranges.now; metrics = metrics } }
{
    let mut sizes = Vec::new(alloc);
    for range in ranges {
        let size = Size {
            cardinality: *range,
            range: *range,
        };
        sizes.push(size).expect(rt, "memory");
    }
    let shape = Shape {
        sizes: Sizes::from_vec(sizes),
    };
    assert!(rt; sound_bricks(shape.sizes.as_slice()).is_some() && shape.sizes.len() <= 16);
    Columns::new(alloc, &shape, metrics).expect(rt, "memory")
}

// Whether there is an offset for each range, below it.
fn are_below(offsets: &[u32], ranges: &[u32]) -> bool
    ensures { IsTrue result → AllZip ◌<◌ offsets.now ranges.now }
{
    let [offset, offsets_rest @ ..] = offsets else {
        return ranges.is_empty();
    };
    let [range, ranges_rest @ ..] = ranges else {
        return false;
    };
    *offset < *range && are_below(offsets_rest, ranges_rest)
}

/// Puts a row.
pub fn put(
    rt: &impl Abort,
    columns: &mut Columns,
    ranges: &[u32],
    metrics: u32,
    offsets: &[u32],
    values: &[i64],
)
    requires { columns.old.layout ≡ record { ranges = ranges.now; metrics = metrics } }
    ensures { columns.new.layout ≡ columns.old.layout }
{
    columns.reserve(1).expect(rt, "memory");
    assert!(rt; are_below(offsets, ranges) && values.len() == metrics as usize);
    columns.push_row(offsets, values);
}

// Puts the row of a text: its offsets and, behind a `|`, its metrics.
fn put_text(
    rt: &impl Abort,
    alloc: Global,
    columns: &mut Columns,
    ranges: &[u32],
    metrics: u32,
    row: &str,
)
    requires { columns.old.layout ≡ record { ranges = ranges.now; metrics = metrics } }
    ensures { columns.new.layout ≡ columns.old.layout }
{
    let (offsets, values) = row.split_once('|').expect(rt, "a row");
    let offsets = numbers_of(rt, alloc, offsets);
    let values = values_of(rt, alloc, values);
    put(
        rt,
        columns,
        ranges,
        metrics,
        offsets.as_slice(),
        values.as_slice(),
    );
}

/// Columns of the rows of a text, with commas between them.
pub fn columns_of(
    rt: &impl Abort,
    alloc: Global,
    ranges: &[u32],
    metrics: u32,
    rows: &str,
) -> Columns
    ensures { result.layout ≡ record { ranges = ranges.now; metrics = metrics } }
{
    let mut columns = columns_for(rt, alloc, ranges, metrics);
    'rows: for row in rows.split(',') {
        put_text(rt, alloc, &mut columns, ranges, metrics, row);
    }
    columns
}
