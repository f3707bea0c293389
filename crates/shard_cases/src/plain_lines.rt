//! The lines of an answer by a walk over plain rows.

use crate::past::PlainRow;
use cube_values::{Field, Table};
use std::alloc::{AllocError, Global};

/// A group: its coordinates, how many rows it has, and their sum, least and greatest metric.
#[derive(Clone, Copy, Debug)]
struct PlainLine {
    key: [u32; 2],
    count: i128,
    sum: i128,
    low: i64,
    high: i64,
}

impl PlainLine {
    /// A group without rows.
    fn new(key: [u32; 2]) -> PlainLine {
        PlainLine {
            key,
            count: 0,
            sum: 0,
            low: i64::MAX,
            high: i64::MIN,
        }
    }

    /// The group gains a row.
    fn add(&mut self, metric: i64) {
        self.count = self.count.wrapping_add(1);
        self.sum = self.sum.wrapping_add(i128::from(metric));
        self.low = self.low.min(metric);
        self.high = self.high.max(metric);
    }
}

/// The coordinate of a dimension.
fn coord_in(dim: u32, row: &PlainRow) -> u32 {
    let [x, y] = row.coords;
    if dim == 0 { x } else { y }
}

/// The coordinates in the dimensions of a group, and 0 in the place of others.
fn key_of(group: &[u32], row: &PlainRow) -> [u32; 2] {
    match group {
        [] => [0, 0],
        [dim] => [coord_in(*dim, row), 0],
        [first, second, ..] => [coord_in(*first, row), coord_in(*second, row)],
    }
}

/// Adds a row to the line of its key, or to a new one.
fn add(lines: &mut Vec<PlainLine>, key: [u32; 2], metric: i64) -> Result<(), AllocError> {
    for line in lines.iter_mut() {
        if line.key == key {
            line.add(metric);
            return Ok(());
        }
    }
    let mut line = PlainLine::new(key);
    line.add(metric);
    lines.push(line)?;
    Ok(())
}

/// A line for each group of rows; without a group one line, also of no rows.
fn lines_of(
    alloc: Global,
    rows: &[PlainRow],
    group: &[u32],
    metric: u32,
) -> Result<Vec<PlainLine>, AllocError> {
    let mut lines = Vec::new(alloc);
    if group.is_empty() {
        lines.push(PlainLine::new([0, 0]))?;
    }
    for row in rows {
        let [m, n] = row.metrics;
        let number = if metric == 0 { m } else { n };
        add(&mut lines, key_of(group, row), number)?;
    }
    Ok(lines)
}

/// Whether a field is a number.
fn is_whole(field: &Field, number: i128) -> bool {
    match field {
        Field::Whole(whole) => *whole == number,
        _ => false,
    }
}

/// Whether a field is an average, cut to four decimals.
fn is_average(field: &Field, sum: i128, count: i128) -> bool {
    match field {
        Field::Decimal { neg, whole, four } => {
            let cut = sum.unsigned_abs().wrapping_mul(10_000) / count.unsigned_abs().max(1);
            *neg == (sum < 0 && cut > 0)
                && *whole == cut / 10_000
                && u128::from(*four) == cut % 10_000
        }
        _ => false,
    }
}

/// Whether fields are the count, the sum, the least and greatest metric and the average of a line.
fn are_totals(fields: &[Field], line: &PlainLine) -> bool {
    let [count, sum, low, high, average] = fields else {
        return false;
    };
    if line.count == 0 {
        return is_whole(count, 0)
            && *sum == Field::Null
            && *low == Field::Null
            && *high == Field::Null
            && *average == Field::Null;
    }
    is_whole(count, line.count)
        && is_whole(sum, line.sum)
        && is_whole(low, i128::from(line.low))
        && is_whole(high, i128::from(line.high))
        && is_average(average, line.sum, line.count)
}

/// Whether fields are the coordinates and the totals of a line.
fn is_line(fields: &[Field], keys: usize, line: &PlainLine) -> bool {
    let [first, second] = line.key;
    match (keys, fields) {
        (0, totals) => are_totals(totals, line),
        (1, [x, totals @ ..]) => is_whole(x, i128::from(first)) && are_totals(totals, line),
        (_, [x, y, totals @ ..]) => {
            is_whole(x, i128::from(first))
                && is_whole(y, i128::from(second))
                && are_totals(totals, line)
        }
        _ => false,
    }
}

/// Whether a table has a line.
fn has(table: &Table, keys: usize, line: &PlainLine) -> bool {
    for fields in table.as_slice() {
        if is_line(fields.as_slice(), keys, line) {
            return true;
        }
    }
    false
}

/// Whether a table has a line for each group of rows and no other, in any order.
pub fn is_table(
    alloc: Global,
    table: &Table,
    rows: &[PlainRow],
    group: &[u32],
    metric: u32,
) -> Result<bool, AllocError> {
    let lines = lines_of(alloc, rows, group, metric)?;
    for line in lines.iter() {
        if !has(table, group.len(), line) {
            return Ok(false);
        }
    }
    Ok(table.len() == lines.len())
}
