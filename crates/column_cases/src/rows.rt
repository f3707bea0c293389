//! Rows of a brick that come and go, by tables.

ghost use Rattle.std.specs.Prelude.{◌≡◌, ◌<◌, ◌≤◌, IsTrue, All, length, [], ◌∷◌};
ghost use Rattle.std.specs.List.{AllZip};
ghost use Rattle.packed_words.specs.Rows.{differences};
ghost use Rattle.brick_columns.specs.Rows.{LiesFrom};
ghost use Rattle.cube_values.specs.Batches.{rows_between};

use crate::making::{columns_for, columns_of};
use crate::tables::{are_words, numbers_of, values_of};
use brick_columns::Columns;
use cube_values::{Bits, CodedRows};
use std::alloc::Global;
use std::process::Abort;

// Whether the offsets in a dimension are those of a text.
fn have_offsets(rt: &impl Abort, alloc: Global, columns: &Columns, dim: u32, wanted: &str) -> bool
    requires { dim < length columns.now.layout.ranges }
{
    let wanted = numbers_of(rt, alloc, wanted);
    are_offsets(columns, dim, wanted.as_slice())
}

fn are_offsets(columns: &Columns, dim: u32, wanted: &[u32]) -> bool
    requires { dim < length columns.now.layout.ranges }
{
    if columns.len() != wanted.len() as u64 {
        return false;
    }
    for at in 0..wanted.len() {
        if columns.offset(at as u64, dim) != wanted[at] {
            return false;
        }
    }
    true
}

// Whether the numbers of a metric are those of a text.
fn have_metrics(rt: &impl Abort, alloc: Global, columns: &Columns, m: u32, wanted: &str) -> bool
    requires { m < columns.now.layout.metrics }
{
    let wanted = values_of(rt, alloc, wanted);
    columns.metrics_of(m) == wanted.as_slice()
}

// Regions in ranges of two and genders in ranges of one, with likes and comments.
const VISITS: &str = "1 0 | 5 0, 0 0 | 2 4, 0 0 | 3 1, 1 0 | -7 2, \
    1 0 | -9223372036854775808 9223372036854775807, 0 0 | 0 -1";

// One bit for the region of each row, none for its gender.
fn has_visits(rt: &impl Abort, alloc: Global, columns: &Columns) -> bool
    requires { columns.now.layout ≡ record { ranges = 2 ∷ 1 ∷ []; metrics = 2 } }
{
    have_offsets(rt, alloc, columns, 0, "1 0 0 1 1 0")
        && have_offsets(rt, alloc, columns, 1, "0 0 0 0 0 0")
        && have_metrics(rt, alloc, columns, 0, "5 2 3 -7 -9223372036854775808 0")
        && have_metrics(rt, alloc, columns, 1, "0 4 1 2 9223372036854775807 -1")
        && are_words(columns.words(), "19")
}

fn has_visits_left(rt: &impl Abort, alloc: Global, columns: &Columns) -> bool
    requires { columns.now.layout ≡ record { ranges = 2 ∷ 1 ∷ []; metrics = 2 } }
{
    have_offsets(rt, alloc, columns, 0, "1 0 1 0")
        && have_metrics(rt, alloc, columns, 0, "5 2 -9223372036854775808 0")
        && have_metrics(rt, alloc, columns, 1, "0 4 9223372036854775807 -1")
        && are_words(columns.words(), "5")
}

// The third row and the fourth go.
fn keep_four(rt: &impl Abort, alloc: Global, columns: &mut Columns)
    ensures { columns.new.layout ≡ columns.old.layout }
{
    let mut bits = Bits::new(alloc, 6).expect(rt, "memory");
    bits.reset(6);
    bits.fill(2, 4, false);
    assert!(rt; columns.len() == 6);
    columns.keep(&bits);
}

#[test]
fn rows_of_a_brick_come_and_go(rt: HostRuntime) {
    let alloc = rt.alloc();
    assert!(rt; columns_for(&rt, alloc, &[2, 1], 2).len() == 0);
    let mut columns = columns_of(&rt, alloc, &[2, 1], 2, VISITS);
    assert!(rt; has_visits(&rt, alloc, &columns));
    keep_four(&rt, alloc, &mut columns);
    assert!(rt; has_visits_left(&rt, alloc, &columns));
}

// Ranges, rows of offsets below them with one metric, and the words of the rows by digits of 16.
const WORDS: &str = "\
2 3 / 1 2 | 0, 0 1 | 1 / 15
4294967295 / 0 | 0, 4294967294 | 1, 1 | 2 / fffffffe00000000 1
2 2 2 2 2 2 2 2 2 2 2 2 2 2 2 2 / 1 0 0 0 0 0 0 0 0 0 0 0 0 0 0 1 | 0, 1 1 1 1 1 1 1 1 1 1 1 1 1 1 1 1 | 1 / ffff8001
4294967295 4294967295 4294967295 4294967295 4294967295 4294967295 4294967295 4294967295 4294967295 4294967295 4294967295 4294967295 4294967295 4294967295 4294967295 4294967295 / 1 1 1 1 1 1 1 1 1 1 1 1 1 1 1 1 | 0 / 100000001 100000001 100000001 100000001 100000001 100000001 100000001 100000001
/ | 0, | 1 /";

// Whether columns of these rows have these words.
fn has_words(rt: &impl Abort, alloc: Global, row: &str) -> Option<bool> {
    let (ranges, row) = row.split_once('/')?;
    let (rows, words) = row.split_once('/')?;
    let ranges = numbers_of(rt, alloc, ranges);
    let columns = columns_of(rt, alloc, ranges.as_slice(), 1, rows);
    let count = rows.split(',').count() as u64;
    Some(columns.len() == count && are_words(columns.words(), words))
}

// The rows (1, 2) and (0, 1) are in one bit and two: 1, 0 1, 0, 1 0. The greatest range takes 32 bits; sixteen dimensions
// take a bit each, or 32; and no dimension takes no bit.
#[test]
fn words_have_the_bits_of_the_rows(rt: HostRuntime) {
    for row in WORDS.lines() {
        assert!(rt; has_words(&rt, rt.alloc(), row) == Some(true), "{row}");
    }
}

// Whether the coordinates are not below the starts, and by less than the ranges above them.
fn lie_above(starts: &[u32], coords: &[u32], ranges: &[u32]) -> bool
    ensures above { IsTrue result → AllZip ◌≤◌ starts.now coords.now }
    ensures below { IsTrue result → AllZip ◌<◌ (differences coords.now starts.now) ranges.now }
{
    let [coord, coords_rest @ ..] = coords else {
        return starts.is_empty() && ranges.is_empty();
    };
    let [start, starts_rest @ ..] = starts else {
        return false;
    };
    let [range, ranges_rest @ ..] = ranges else {
        return false;
    };
    *start <= *coord && *coord - *start < *range && lie_above(starts_rest, coords_rest, ranges_rest)
}

// Whether the rows from one place up to another can be put.
fn can_be_put(
    batch: &CodedRows,
    from: usize,
    to: usize,
    starts: &[u32],
    ranges: &[u32],
    metrics: u32,
) -> bool
    requires order { from ≤ to }
    requires within { to ≤ length batch.now.rows }
    ensures { IsTrue result
        → All (LiesFrom (record { ranges = ranges.now; metrics = metrics }) starts.now)
        (rows_between from to batch.now.rows) }
{
    'rows: for i in from..to {
        if !lie_above(starts, batch.coords_of(i), ranges)
            || batch.metrics_of(i).len() != metrics as usize
        {
            return false;
        }
    }
    true
}

// A batch of rows of two dimensions and one metric.
fn batch_of(rt: &impl Abort, alloc: Global, rows: &str) -> CodedRows {
    let mut batch = CodedRows::new(alloc, 2, 1);
    batch.reserve(rows.split(',').count()).expect(rt, "memory");
    'rows: for row in rows.split(',') {
        put_in_batch(rt, alloc, &mut batch, row);
    }
    batch
}

fn put_in_batch(rt: &impl Abort, alloc: Global, batch: &mut CodedRows, row: &str)
    requires dims { batch.old.dims ≡ 2 }
    requires width { batch.old.width ≡ 1 }
    ensures dims { batch.new.dims ≡ 2 }
    ensures width { batch.new.width ≡ 1 }
{
    let (coords, metrics) = row.split_once('|').expect(rt, "a row");
    let coords = numbers_of(rt, alloc, coords);
    let metrics = values_of(rt, alloc, metrics);
    assert!(rt; batch.len() < batch.room() && coords.len() == 2 && metrics.len() == 1);
    batch.push(coords.as_slice(), metrics.as_slice());
}

// Puts the rows of a batch from one place up to another into a brick from (6, 8) on.
fn put_between(rt: &impl Abort, columns: &mut Columns, batch: &CodedRows, from: usize, to: usize)
    requires { columns.old.layout ≡ record { ranges = 3 ∷ 2 ∷ []; metrics = 1 } }
    ensures { columns.new.layout ≡ columns.old.layout }
{
    assert!(rt; from <= to && to <= batch.len());
    columns.reserve((to - from) as u64).expect(rt, "memory");
    assert!(rt; can_be_put(batch, from, to, &[6, 8], &[3, 2], 1));
    columns.push_rows(batch, from, to, &[6, 8]);
}

// The bits are 0, 0, 1, then 0, 1, 0, then 1, 0, 1 from bit 0 on.
fn has_three_rows(rt: &impl Abort, alloc: Global, columns: &Columns) -> bool
    requires { columns.now.layout ≡ record { ranges = 3 ∷ 2 ∷ []; metrics = 1 } }
{
    have_offsets(rt, alloc, columns, 0, "0 2 1")
        && have_offsets(rt, alloc, columns, 1, "1 0 1")
        && have_metrics(rt, alloc, columns, 0, "2 -3 4")
        && are_words(columns.words(), "154")
}

#[test]
fn a_range_of_a_batch_is_put(rt: HostRuntime) {
    // The brick has ranges of three and two. The first row and the last are of other bricks.
    let batch = batch_of(
        &rt,
        rt.alloc(),
        "2 8 | 1, 6 9 | 2, 8 8 | -3, 7 9 | 4, 9 9 | 5",
    );
    let mut columns = columns_for(&rt, rt.alloc(), &[3, 2], 1);
    put_between(&rt, &mut columns, &batch, 1, 3);
    put_between(&rt, &mut columns, &batch, 3, 3);
    put_between(&rt, &mut columns, &batch, 3, 4);
    assert!(rt; has_three_rows(&rt, rt.alloc(), &columns));
}
