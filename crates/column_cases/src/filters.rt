//! Columns beside plain lists of rows.

ghost use Rattle.std.specs.Prelude.{◌≡◌, ◌<◌, ◌^◌, length};

use crate::making::{columns_for, put};
use crate::tables::numbers_of;
use brick_columns::Columns;
use cube_values::Bits;
use std::alloc::{AllocError, Global};
use std::process::Abort;

// Which rows are kept.
#[derive(Clone, Copy, Debug)]
enum Choice {
    None,
    All,
    Every(usize),
    First,
    Last,
    Some(u64),
}

impl Choice {
    // Whether the row at `at` of `rows` is kept.
    fn keeps(self, at: usize, rows: usize) -> bool {
        match self {
            Choice::None => false,
            Choice::All => true,
            Choice::Every(step) => step > 0 && at % step == 0,
            Choice::First => at == 0,
            Choice::Last => at == rows.saturating_sub(1),
            Choice::Some(seed) => mixed(seed, at as u64) % 3 > 0,
        }
    }
}

// A number that looks like chance.
fn mixed(a: u64, b: u64) -> u64
    ensures { result < 2 ^ 53 }
{
    let x = a.wrapping_mul(6_364_136_223_846_793_005).wrapping_add(b);
    x.wrapping_mul(1_442_695_040_888_963_407) >> 11
}

// The offset of a row in a dimension, as the row's number says: the least, the greatest or another.
fn offset_for(row: u64, dim: usize, range: u32) -> u32 {
    match row % 5 {
        0 => 0,
        1 => range.saturating_sub(1),
        _ => (mixed(row, dim as u64) % u64::from(range.max(1))) as u32,
    }
}

// A metric of a row, as the row's number says: close to the least, to the greatest or another.
fn metric_for(row: u64, m: u32) -> i64 {
    match row % 5 {
        0 => i64::MIN + i64::from(m),
        1 => i64::MAX - i64::from(m),
        _ => mixed(row, u64::from(m)) as i64 - (1 << 40),
    }
}

fn offsets_for(rt: &impl Abort, alloc: Global, row: u64, ranges: &[u32]) -> Vec<u32> {
    let mut offsets = Vec::new(alloc);
    for (dim, range) in ranges.iter().enumerate() {
        offsets
            .push(offset_for(row, dim, *range))
            .expect(rt, "memory");
    }
    offsets
}

fn metrics_for(rt: &impl Abort, alloc: Global, row: u64, metrics: u32) -> Vec<i64> {
    let mut values = Vec::new(alloc);
    for m in 0..metrics {
        values.push(metric_for(row, m)).expect(rt, "memory");
    }
    values
}

fn put_one(
    rt: &impl Abort,
    alloc: Global,
    columns: &mut Columns,
    ranges: &[u32],
    metrics: u32,
    row: u64,
)
    requires { columns.old.layout ≡ record { ranges = ranges.now; metrics = metrics } }
    ensures { columns.new.layout ≡ columns.old.layout }
{
    let offsets = offsets_for(rt, alloc, row, ranges);
    let values = metrics_for(rt, alloc, row, metrics);
    put(
        rt,
        columns,
        ranges,
        metrics,
        offsets.as_slice(),
        values.as_slice(),
    );
}

// Puts the rows of these numbers.
fn put_all(
    rt: &impl Abort,
    alloc: Global,
    columns: &mut Columns,
    ranges: &[u32],
    metrics: u32,
    rows: &[u64],
)
    requires { columns.old.layout ≡ record { ranges = ranges.now; metrics = metrics } }
    ensures { columns.new.layout ≡ columns.old.layout }
{
    'rows: for row in rows {
        put_one(rt, alloc, columns, ranges, metrics, *row);
    }
}

// Whether the offsets in a dimension are those of the rows of these numbers.
fn has_offsets(columns: &Columns, dim: u32, range: u32, rows: &[u64]) -> bool
    requires { dim < length columns.now.layout.ranges }
{
    for at in 0..rows.len() {
        if at as u64 >= columns.len()
            || columns.offset(at as u64, dim) != offset_for(rows[at], dim as usize, range)
        {
            return false;
        }
    }
    true
}

// Whether the numbers of a metric are those of the rows of these numbers, one by one and as a list.
fn has_metrics(columns: &Columns, m: u32, rows: &[u64]) -> bool
    requires { m < columns.now.layout.metrics }
{
    let column = columns.metrics_of(m);
    if column.len() != rows.len() || columns.len() != rows.len() as u64 {
        return false;
    }
    for at in 0..rows.len() {
        let wanted = metric_for(rows[at], m);
        if columns.metric(at as u64, m) != wanted || column[at] != wanted {
            return false;
        }
    }
    true
}

// Whether the columns have the rows of these numbers.
fn have_rows(columns: &Columns, ranges: &[u32], metrics: u32, rows: &[u64]) -> bool
    requires { columns.now.layout ≡ record { ranges = ranges.now; metrics = metrics } }
{
    for (dim, range) in ranges.iter().enumerate() {
        if dim >= 16 || !has_offsets(columns, dim as u32, *range, rows) {
            return false;
        }
    }
    for m in 0..metrics {
        if !has_metrics(columns, m, rows) {
            return false;
        }
    }
    columns.len() == rows.len() as u64
}

// Keeps the rows that are chosen, and answers their numbers by a plain filter.
fn keep(
    rt: &impl Abort,
    alloc: Global,
    columns: &mut Columns,
    rows: &[u64],
    choice: Choice,
) -> Vec<u64>
    ensures { columns.new.layout ≡ columns.old.layout }
{
    let mut bits = Bits::new(alloc, columns.len()).expect(rt, "memory");
    let mut left = Vec::new(alloc);
    for at in 0..rows.len() {
        if choice.keeps(at, rows.len()) {
            assert!(rt; (at as u64) < bits.len());
            bits.set(at as u64, true);
            left.push(rows[at]).expect(rt, "memory");
        }
    }
    assert!(rt; bits.len() == columns.len());
    columns.keep(&bits);
    left
}

// Writes a bit behind as many others.
fn push_bit(words: &mut Vec<u64>, place: u32, bit: u64) -> Result<(), AllocError> {
    if place % 64 == 0 {
        words.push(0)?;
    }
    let last = words.len().saturating_sub(1);
    if last < words.len() {
        words[last] |= bit << (place % 64);
    }
    Ok(())
}

// Writes the bits of an offset behind as many others, and answers how many there are then.
fn push_offset(rt: &impl Abort, words: &mut Vec<u64>, before: u32, range: u32, offset: u32) -> u32 {
    let mut place = before;
    for k in 0..32u32 {
        if u64::from(range) > 1 << k {
            let bit = u64::from((offset >> k) & 1);
            push_bit(words, place, bit).expect(rt, "memory");
            place = place.wrapping_add(1);
        }
    }
    place
}

// The words of rows of these numbers, bit by bit.
fn plain_words(rt: &impl Abort, alloc: Global, ranges: &[u32], rows: &[u64]) -> Vec<u64> {
    let mut words = Vec::new(alloc);
    let mut place = 0u32;
    for row in rows {
        for (dim, range) in ranges.iter().enumerate() {
            let offset = offset_for(*row, dim, *range);
            place = push_offset(rt, &mut words, place, *range, offset);
        }
    }
    words
}

// Whether columns without rows take the rows of these numbers.
fn take_rows(
    rt: &impl Abort,
    alloc: Global,
    columns: &mut Columns,
    ranges: &[u32],
    metrics: u32,
    rows: &[u64],
) -> bool
    requires { columns.old.layout ≡ record { ranges = ranges.now; metrics = metrics } }
    ensures { columns.new.layout ≡ columns.old.layout }
{
    let are_none = have_rows(columns, ranges, metrics, &[]);
    put_all(rt, alloc, columns, ranges, metrics, rows);
    are_none && have_rows(columns, ranges, metrics, rows)
}

// Whether columns have the rows of these numbers, and their words are right.
fn have_words(
    rt: &impl Abort,
    alloc: Global,
    columns: &Columns,
    ranges: &[u32],
    metrics: u32,
    rows: &[u64],
) -> bool
    requires { columns.now.layout ≡ record { ranges = ranges.now; metrics = metrics } }
{
    let words = plain_words(rt, alloc, ranges, rows);
    have_rows(columns, ranges, metrics, rows) && columns.words() == words.as_slice()
}

// Whether columns of rows of these numbers get room for more, and take some rows more.
fn take_more(
    rt: &impl Abort,
    alloc: Global,
    columns: &mut Columns,
    ranges: &[u32],
    metrics: u32,
    left: &mut Vec<u64>,
    rows: &[u64],
) -> bool
    requires { columns.old.layout ≡ record { ranges = ranges.now; metrics = metrics } }
{
    columns.reserve(40).expect(rt, "memory");
    let are_left = have_rows(columns, ranges, metrics, left.as_slice());
    put_all(rt, alloc, columns, ranges, metrics, rows);
    left.extend_from_slice(rows).expect(rt, "memory");
    are_left && have_rows(columns, ranges, metrics, left.as_slice())
}

// Puts the rows of these numbers, keeps those that are chosen and puts the rows once more: are all there each time?
fn put_and_keep(
    rt: &impl Abort,
    alloc: Global,
    ranges: &[u32],
    metrics: u32,
    choice: Choice,
    rows: &[u64],
) -> bool {
    let mut columns = columns_for(rt, alloc, ranges, metrics);
    let took = take_rows(rt, alloc, &mut columns, ranges, metrics, rows);
    let mut left = keep(rt, alloc, &mut columns, rows, choice);
    took && have_words(rt, alloc, &columns, ranges, metrics, left.as_slice())
        && take_more(rt, alloc, &mut columns, ranges, metrics, &mut left, rows)
}

// The ranges of dimensions on each line; on the first one there are none.
const SHAPES: &str = "
1
4294967295
1 4294967295
4294967295 7
1 1 1 1 1 1 1 1 1 1 1 1 1 1 1 1
4294967295 4294967295 4294967295 4294967295 4294967295 4294967295 4294967295 4294967295 4294967295 4294967295 4294967295 4294967295 4294967295 4294967295 4294967295 4294967295
1 2 3 4 5 6 7 8 9 10 11 12 13 14 15 4294967295";

fn choice_of(number: u32) -> Choice {
    match number {
        0 => Choice::None,
        1 => Choice::All,
        2 => Choice::Every(2),
        3 => Choice::First,
        4 => Choice::Last,
        _ => Choice::Some(1),
    }
}

// Puts and keeps the first so many rows.
fn keep_count(
    rt: &impl Abort,
    alloc: Global,
    ranges: &[u32],
    metrics: u32,
    choice: Choice,
    rows: u64,
) -> bool {
    let rows: Vec<u64> = (0..rows).collect(alloc).expect(rt, "memory");
    put_and_keep(rt, alloc, ranges, metrics, choice, rows.as_slice())
}

fn keep_counts(
    rt: &impl Abort,
    alloc: Global,
    ranges: &[u32],
    metrics: u32,
    choice: Choice,
) -> bool {
    keep_count(rt, alloc, ranges, metrics, choice, 0)
        && keep_count(rt, alloc, ranges, metrics, choice, 1)
        && keep_count(rt, alloc, ranges, metrics, choice, 2)
        && keep_count(rt, alloc, ranges, metrics, choice, 70)
}

fn keep_choices(rt: &impl Abort, alloc: Global, shape: &str, metrics: u32) {
    let ranges = numbers_of(rt, alloc, shape);
    for number in 0..6 {
        let choice = choice_of(number);
        assert!(rt;
            keep_counts(rt, alloc, ranges.as_slice(), metrics, choice),
            "{shape}, {metrics} metrics, choice {number}"
        );
    }
}

#[test]
fn all_shapes_keep_what_a_filter_keeps(rt: HostRuntime) {
    for shape in SHAPES.split('\n') {
        keep_choices(&rt, rt.alloc(), shape, 0);
        keep_choices(&rt, rt.alloc(), shape, 1);
        keep_choices(&rt, rt.alloc(), shape, 16);
    }
}

fn keep_thousands(rt: &impl Abort, alloc: Global, seed: u64) -> bool {
    let rows: Vec<u64> = (0..4000)
        .map(|at| mixed(seed, at))
        .collect(alloc)
        .expect(rt, "memory");
    put_and_keep(
        rt,
        alloc,
        &[1000, u32::MAX],
        2,
        Choice::Some(seed),
        rows.as_slice(),
    )
}

#[test]
fn thousands_of_rows_come_and_go(rt: HostRuntime) {
    for seed in 0..3 {
        assert!(rt; keep_thousands(&rt, rt.alloc(), seed), "seed {seed}");
    }
}
