//! The lines of an answer by a plain walk.

use crate::steps::{Past, coords_of, metric_of};
use crate::tables::is_number;
use cube_values::{Field, NameLists, Snapshot, Span, Table, Text, TextLists, Texts};
use std::alloc::{AllocError, Global};

const TEXTS: [&str; 5] = ["d", "a", "e", "b", "c"];

// The texts of the first dimension.
pub fn names(alloc: Global) -> Result<NameLists, AllocError> {
    let mut texts = Texts::new(alloc);
    for text in TEXTS {
        texts.push(Text::new(alloc, text)?)?;
    }
    let mut lists = TextLists::new(alloc);
    lists.push(texts)?;
    let mut names = NameLists::new(alloc);
    names.push(lists)?;
    Ok(names)
}

// A group: its coordinates, how many rows it has, and their sum, least and greatest metric.
#[derive(Clone, Copy, Debug)]
pub struct PlainLine {
    key: [u32; 2],
    count: i128,
    sum: i128,
    low: i64,
    high: i64,
}

impl PlainLine {
    fn with(self, metric: i64) -> PlainLine {
        let key = self.key;
        PlainLine {
            key,
            count: self.count.wrapping_add(1),
            sum: self.sum.wrapping_add(i128::from(metric)),
            low: self.low.min(metric),
            high: self.high.max(metric),
        }
    }
}

// The coordinates in the dimensions of a group.
fn key_of(group: &[u32], coords: [u32; 2]) -> [u32; 2] {
    let mut key = [0; 2];
    for k in 0..2 {
        if k < group.len() {
            key[k] = if group[k] == 0 { coords[0] } else { coords[1] };
        }
    }
    key
}

// Adds a row to the line of its key, or to a new one.
fn add(lines: &mut Vec<PlainLine>, key: [u32; 2], metric: i64) -> Result<(), AllocError> {
    for at in 0..lines.len() {
        if lines[at].key == key {
            lines[at] = lines[at].with(metric);
            return Ok(());
        }
    }
    let none = PlainLine {
        key,
        count: 0,
        sum: 0,
        low: i64::MAX,
        high: i64::MIN,
    };
    lines.push(none.with(metric))?;
    Ok(())
}

// Adds the rows of a step that a span has.
fn add_step(
    lines: &mut Vec<PlainLine>,
    number: u64,
    group: &[u32],
    span: &Span,
    first: u64,
    rows: u64,
) -> Result<(), AllocError> {
    for k in 0..rows {
        let i = first.wrapping_add(k);
        let coords = coords_of(number, i);
        if span.has(&coords) {
            add(lines, key_of(group, coords), metric_of(i))?;
        }
    }
    Ok(())
}

// A line for each group of the rows that a snapshot sees and a span has.
pub fn plain_lines(
    alloc: Global,
    past: &Past,
    group: &[u32],
    span: &Span,
    snapshot: &Snapshot,
) -> Result<Vec<PlainLine>, AllocError> {
    let mut lines = Vec::new(alloc);
    let mut first: u64 = 0;
    for at in 0..past.steps.len() {
        let (_, rows) = past.steps[at];
        if past.sees(snapshot, at) {
            add_step(&mut lines, past.number, group, span, first, rows as u64)?;
        }
        first = first.wrapping_add(rows as u64);
    }
    Ok(lines)
}

// Whether a field is a coordinate of a dimension, the first of which has texts.
fn is_coord(field: &Field, dim: u32, coord: u32) -> bool {
    match field {
        Field::Text(text) => { dim == 0 && coord < 5 && text.as_str() == TEXTS[coord as usize] }
        Field::Whole(whole) => dim == 1 && *whole == i128::from(coord),
        _ => false,
    }
}

// Whether a field is an average, cut to four decimals.
fn is_average(field: &Field, sum: i128, count: i128) -> bool {
    match field {
        Field::Decimal { neg, whole, four } => {
            let cut = sum.unsigned_abs().wrapping_mul(10_000) / count.unsigned_abs().max(1);
            *neg == (sum < 0 && cut > 0)
                && *whole == cut / 10_000
                && u128::from(*four) == cut % 10_000
        }
        _ => false,
    }
}

// Whether the fields are those of a line.
fn are_of_line(fields: &[Field], group: &[u32], line: &PlainLine) -> bool {
    let keys = group.len();
    if keys > 2 || fields.len() != keys + 5 {
        return false;
    }
    for k in 0..keys {
        if !is_coord(&fields[k], group[k], line.key[k]) {
            return false;
        }
    }
    is_number(&fields[keys], line.count)
        && is_number(&fields[keys + 1], line.sum)
        && is_number(&fields[keys + 2], i128::from(line.low))
        && is_number(&fields[keys + 3], i128::from(line.high))
        && is_average(&fields[keys + 4], line.sum, line.count)
}

// Whether the fields are those of no rows.
fn are_of_none(fields: &[Field]) -> bool {
    if fields.len() != 5 || !is_number(&fields[0], 0) {
        return false;
    }
    for k in 1..5 {
        if fields[k] != Field::Null {
            return false;
        }
    }
    true
}

// Whether a table has a line.
fn has(table: &Table, group: &[u32], line: &PlainLine) -> bool {
    for fields in table.as_slice() {
        if are_of_line(fields.as_slice(), group, line) {
            return true;
        }
    }
    false
}

// Whether a table has the lines and no other. Without a group there is one line also for no rows.
pub fn agrees(table: &Table, group: &[u32], lines: &[PlainLine]) -> bool {
    if group.is_empty() && lines.is_empty() {
        return match table.as_slice() {
            [line] => are_of_none(line.as_slice()),
            _ => false,
        };
    }
    for line in lines {
        if !has(table, group, line) {
            return false;
        }
    }
    table.len() == lines.len()
}
