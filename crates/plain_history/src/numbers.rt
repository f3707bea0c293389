//! Sums and extremes of numbers.

ghost use Rattle.std.specs.Prelude.{◌≡◌, map, fold, pos, slice_get, unwrap_or, IfOk};
ghost use Rattle.std.specs.Int.{int_min, int_max};
ghost use Rattle.cube_values.specs.Answer.{metric_of, total};

use cube_values::Row;
use std::alloc::{AllocError, Global};

/// A metric of rows. Where a row has none, it is 0.
pub fn metric_of(alloc: Global, metric: u32, rows: &[&Row]) -> Result<Vec<i64>, AllocError>
    ensures { IfOk result (λ numbers. numbers.items
        ≡ metric_of metric (map (λ r. r.now) rows.now)) }
{
    let mut numbers = Vec::new(alloc);
    for row in rows {
        numbers.push(metric_at(row, metric))?;
    }
    Ok(numbers)
}

fn metric_at(row: &Row, metric: u32) -> i64
    ensures { result ≡ unwrap_or (slice_get row.now.metrics metric) (pos 0) }
{
    row.metrics
        .as_slice()
        .get(metric as usize)
        .copied()
        .unwrap_or(0)
}

/// The sum of numbers. A slice has fewer than 2^64 of them, each below 2^63 in size, so it fits.
pub fn total(numbers: &[i64]) -> i128
    ensures { result ≡ total numbers.now }
{
    let mut sum = 0;
    for n in numbers {
        sum += i128::from(*n);
    }
    sum
}

/// The least of a number and more numbers.
pub fn least(first: i64, numbers: &[i64]) -> i64
    ensures { result ≡ fold int_min first numbers.now }
{
    let mut least = first;
    for n in numbers {
        least = least.min(*n);
    }
    least
}

/// The greatest of a number and more numbers.
pub fn greatest(first: i64, numbers: &[i64]) -> i64
    ensures { result ≡ fold int_max first numbers.now }
{
    let mut greatest = first;
    for n in numbers {
        greatest = greatest.max(*n);
    }
    greatest
}
