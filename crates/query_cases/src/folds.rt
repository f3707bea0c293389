//! Worked rows and extreme numbers.

ghost use Rattle.std.specs.Prelude.{[], ◌++◌, ◌≡◌, ◌<◌, ◌≤◌, ◌+◌, ◌^◌, IsTrue, List, All, length, IfOk};
ghost use Rattle.cube_values.specs.Queries.{IsSoundItem, IsSoundQuery};
ghost use Rattle.cube_values.specs.declared.row.CodedRow.{CodedRow};
ghost use Rattle.agg_fold.specs.Standing.{StandsFor};
ghost use Rattle.query_cases.specs.TwoRows.{StandsForFew, count_and_sum, three_and_five};

use crate::fields::is_table;
use agg_fold::Partial;
use cube_values::{
    BoundItem, BoundItems, BoundQuery, Coords, NameLists, Part, Parts, Span, Table, Text,
    TextLists, Texts,
};
use std::alloc::{AllocError, Global};

mod plain;

/// A row of at most three coordinates and one metric.
#[derive(Clone, Copy)]
struct Made {
    coords: [u32; 3],
    metric: i64,
}

fn is_sound_item(group: &[u32], metrics: usize, item: BoundItem) -> bool
    ensures { IsTrue result → IsSoundItem group.now metrics item }
{
    match item {
        BoundItem::Group(dim) => group.contains(&dim),
        BoundItem::Count => true,
        BoundItem::Sum(metric) => (metric as usize) < metrics,
        BoundItem::Min(metric) => (metric as usize) < metrics,
        BoundItem::Max(metric) => (metric as usize) < metrics,
        BoundItem::Avg(metric) => (metric as usize) < metrics,
    }
}

fn all_below(group: &[u32], dims: usize) -> bool
    ensures { IsTrue result → All (λ dim. dim < dims) group.now }
{
    'dims: for dim in group {
        if *dim as usize >= dims {
            return false;
        }
    }
    true
}

fn all_sound(items: &[BoundItem], group: &[u32], metrics: usize) -> bool
    ensures { IsTrue result → All (IsSoundItem group.now metrics) items.now }
{
    'items: for item in items {
        if !is_sound_item(group, metrics, *item) {
            return false;
        }
    }
    true
}

fn is_sound(query: &BoundQuery, dims: usize, metrics: usize) -> bool
    ensures { IsTrue result → IsSoundQuery query.now dims metrics }
{
    if query.span.parts.len() != dims {
        return false;
    }
    if !all_below(query.group.as_slice(), dims) {
        return false;
    }
    all_sound(query.items.as_slice(), query.group.as_slice(), metrics)
}

/// A partial of the rows from one place on, each `step` further.
fn fold(
    alloc: Global,
    query: &BoundQuery,
    rows: &[Made],
    from: usize,
    step: usize,
) -> Result<Partial, AllocError>
    requires { length rows.now < 2 ^ 40 }
    ensures { IfOk result (λ p. StandsForFew query.now (length rows.now) p.groups) }
{
    let mut partial = Partial::new(alloc);
    'rows: for i in 0..rows.len() {
        let row = rows[i];
        if step == 0 || i % step != from {
            continue;
        }
        let coords = row.coords;
        let metrics = [row.metric];
        if !is_sound(query, coords.len(), metrics.len()) || !query.span.has(&coords) {
            continue;
        }
        partial.add_row(query, &coords, &metrics)?;
    }
    Ok(partial)
}

/// Three partials, each of every third row, merged with the last first.
fn fold_in_three(alloc: Global, query: &BoundQuery, rows: &[Made]) -> Result<Partial, AllocError>
    requires { length rows.now < 2 ^ 40 }
    ensures { IfOk result (λ p. (rs : List CodedRow) × StandsFor query.now rs p.groups) }
{
    let mut total = fold(alloc, query, rows, 2, 3)?;
    let first = fold(alloc, query, rows, 0, 3)?;
    let second = fold(alloc, query, rows, 1, 3)?;
    total.merge(query, &first)?;
    total.merge(query, &second)?;
    Ok(total)
}

fn query(alloc: Global, group: &[u32], items: &[BoundItem]) -> Result<BoundQuery, AllocError> {
    Ok(BoundQuery {
        cube: 0,
        span: Span {
            parts: Parts::from_vec(vec![in alloc; Part::All, Part::All, Part::All]?),
        },
        group: Coords::from_vec(Vec::from_slice(alloc, group)?),
        items: BoundItems::from_vec(Vec::from_slice(alloc, items)?),
    })
}

/// The texts of the first dimension, with a blank between two; the others have numbers.
fn names(alloc: Global, texts: &str) -> Result<NameLists, AllocError> {
    let mut list = Texts::new(alloc);
    for text in texts.split(' ') {
        list.push(Text::new(alloc, text)?)?;
    }
    let mut lists = TextLists::new(alloc);
    lists.push(list)?;
    let mut all = NameLists::new(alloc);
    all.push(lists)?;
    Ok(all)
}

/// The table of rows, folded in one partial, and in three that are merged.
fn tables(
    alloc: Global,
    query: &BoundQuery,
    names: &NameLists,
    rows: &[Made],
) -> Result<(Table, Table), AllocError>
    requires { length rows.now < 2 ^ 40 }
{
    let one = fold(alloc, query, rows, 0, 1)?.finish(query, names)?;
    let three = fold_in_three(alloc, query, rows)?.finish(query, names)?;
    Ok((one, three))
}

/// Whether this is the table of rows, both ways.
fn gives(
    alloc: Global,
    query: &BoundQuery,
    names: &NameLists,
    rows: &[Made],
    wanted: &str,
) -> Result<bool, AllocError>
    requires { length rows.now < 2 ^ 40 }
{
    let (one, three) = tables(alloc, query, names, rows)?;
    Ok(is_table(&one, wanted) && is_table(&three, wanted))
}

const fn row(coord: u32, metric: i64) -> Made {
    Made {
        coords: [coord, 0, 0],
        metric,
    }
}

fn row_in(text: &str) -> Option<Made> {
    let (coord, metric) = text.split_once(' ')?;
    Some(row(coord.parse::<u32>().ok()?, metric.parse::<i64>().ok()?))
}

/// The rows of a text: the first coordinate and the metric of each.
fn rows_in(alloc: Global, text: &str) -> Result<Vec<Made>, AllocError> {
    let mut rows = Vec::new(alloc);
    for row in text.split(", ") {
        rows.push(row_in(row).ok_or(AllocError)?)?;
    }
    Ok(rows)
}

/// Whether this is the table of the rows of a text, both ways.
fn gives_for(
    alloc: Global,
    query: &BoundQuery,
    names: &NameLists,
    rows: &str,
    wanted: &str,
) -> Result<bool, AllocError> {
    let rows = rows_in(alloc, rows)?;
    if rows.len() > 100 {
        return Err(AllocError);
    }
    gives(alloc, query, names, rows.as_slice(), wanted)
}

/// All totals of the metric, over all rows.
fn query_of_totals(alloc: Global) -> Result<BoundQuery, AllocError> {
    let items = [
        BoundItem::Sum(0),
        BoundItem::Avg(0),
        BoundItem::Min(0),
        BoundItem::Max(0),
        BoundItem::Count,
    ];
    query(alloc, &[], &items)
}

/// Whether these are the totals of the rows of a text.
fn has_totals(alloc: Global, rows: &str, wanted: &str) -> Result<bool, AllocError> {
    let query = query_of_totals(alloc)?;
    gives_for(alloc, &query, &NameLists::new(alloc), rows, wanted)
}

const THREE_TIMES_THE_LARGEST: &str =
    "0 9223372036854775807, 1 9223372036854775807, 1 9223372036854775807";

const TWICE_THE_LEAST: &str = "0 -9223372036854775808, 0 -9223372036854775808";

const MINUS_A_HALF: &str = "0 -1, 4 0";

#[test]
fn whole_sums(rt: HostRuntime) {
    let largest =
        "27670116110564327421 9223372036854775807.0000 9223372036854775807 9223372036854775807 3";
    assert!(rt; has_totals(rt.alloc(), THREE_TIMES_THE_LARGEST, largest) == Ok(true));
    let least =
        "-18446744073709551616 -9223372036854775808.0000 -9223372036854775808 -9223372036854775808 2";
    assert!(rt; has_totals(rt.alloc(), TWICE_THE_LEAST, least) == Ok(true));
    assert!(rt; has_totals(rt.alloc(), MINUS_A_HALF, "-1 -0.5000 -1 0 2") == Ok(true));
}

/// The sum and the least by the texts of the first dimension.
fn query_by_text(alloc: Global) -> Result<BoundQuery, AllocError> {
    let items = [BoundItem::Group(0), BoundItem::Sum(0), BoundItem::Min(0)];
    query(alloc, &[0], &items)
}

/// Whether the rows of a text give the sums 8 and 1 by text.
fn are_merged(alloc: Global, rows: &str) -> Result<bool, AllocError> {
    let query = query_by_text(alloc)?;
    let names = names(alloc, "NY CA CA")?;
    gives_for(alloc, &query, &names, rows, "'CA' 8 3\n'NY' 1 1")
}

/// How many rows a fold counts.
fn count_of(alloc: Global, rows: &str) -> Result<u64, AllocError> {
    let query = query_by_text(alloc)?;
    let rows = rows_in(alloc, rows)?;
    if rows.len() > 100 {
        return Err(AllocError);
    }
    Ok(fold(alloc, &query, rows.as_slice(), 0, 1)?.rows())
}

#[test]
fn merged_partials(rt: HostRuntime) {
    let alloc = rt.alloc();
    assert!(rt; are_merged(alloc, "1 3, 1 5, 0 1") == Ok(true), "by text");
    // two coordinates with one text are one group
    assert!(rt;
        are_merged(alloc, "1 3, 2 5, 0 1") == Ok(true),
        "one text twice"
    );
    assert!(rt; count_of(alloc, "1 3, 2 5, 0 1") == Ok(3));
}

/// COUNT and SUM over a cube without dimensions and with one metric.
fn count_and_sum(alloc: Global) -> Result<BoundQuery, AllocError>
    ensures { IfOk result (λ query. query ≡ count_and_sum) }
{
    Ok(BoundQuery {
        cube: 0,
        span: Span {
            parts: Parts::new(alloc),
        },
        group: Coords::new(alloc),
        items: BoundItems::from_vec(vec![in alloc; BoundItem::Count, BoundItem::Sum(0)]?),
    })
}

/// Two rows with the metrics 3 and 5, by their totals.
fn two_rows(alloc: Global, query: &BoundQuery) -> Result<Partial, AllocError>
    requires { query.now ≡ count_and_sum }
    ensures { IfOk result (λ p. StandsFor query.now three_and_five p.groups) }
{
    let mut partial = Partial::new(alloc);
    let sums = [0, 8];
    let others = [0, 0];
    partial.add_group(query, &[], 2, &sums, &others, &others)?;
    Ok(partial)
}

/// The two rows twice.
fn four_rows(query: &BoundQuery, two: &Partial) -> Result<Partial, AllocError>
    requires { StandsFor query.now three_and_five two.now.groups }
    ensures { IfOk result (λ p. StandsFor query.now (three_and_five ++ three_and_five) p.groups) }
{
    let mut total = two.copy()?;
    total.merge(query, two)?;
    Ok(total)
}

/// The answer over the two rows.
fn over_two(alloc: Global, query: &BoundQuery, two: &Partial) -> Result<Table, AllocError>
    requires { StandsFor query.now three_and_five two.now.groups }
{
    two.finish(query, &NameLists::new(alloc))
}

/// The answer over the two rows twice.
fn over_four(alloc: Global, query: &BoundQuery, two: &Partial) -> Result<Table, AllocError>
    requires { StandsFor query.now three_and_five two.now.groups }
{
    let total = four_rows(query, two)?;
    total.finish(query, &NameLists::new(alloc))
}

/// The answer over two rows of four that are left.
fn over_two_left(alloc: Global, query: &BoundQuery, two: &Partial) -> Result<Table, AllocError>
    requires query { query.now ≡ count_and_sum }
    requires two { StandsFor query.now three_and_five two.now.groups }
{
    let mut total = four_rows(query, two)?;
    total.remove(query, two);
    total.finish(query, &NameLists::new(alloc))
}

/// The answer where no row of two is left.
fn over_none_left(alloc: Global, query: &BoundQuery, two: &Partial) -> Result<Table, AllocError>
    requires query { query.now ≡ count_and_sum }
    requires two { StandsFor query.now three_and_five two.now.groups }
{
    let mut total = two.copy()?;
    total.remove(query, two);
    total.finish(query, &NameLists::new(alloc))
}

/// Whether the answers over the rows are right as they come and go: COUNT and SUM, NULL over none.
fn come_and_go(alloc: Global, query: &BoundQuery, two: &Partial) -> Result<bool, AllocError>
    requires query { query.now ≡ count_and_sum }
    requires two { StandsFor query.now three_and_five two.now.groups }
{
    Ok(
        is_table(&over_two(alloc, query, two)?, "2 8")
            && is_table(&over_four(alloc, query, two)?, "4 16")
            && is_table(&over_two_left(alloc, query, two)?, "2 8")
            && is_table(&over_none_left(alloc, query, two)?, "0 NULL"),
    )
}

fn two_come_and_go(alloc: Global) -> Result<bool, AllocError> {
    let query = count_and_sum(alloc)?;
    let two = two_rows(alloc, &query)?;
    come_and_go(alloc, &query, &two)
}

#[test]
fn rows_by_their_totals_come_and_go(rt: HostRuntime) {
    assert!(rt; two_come_and_go(rt.alloc()) == Ok(true));
}

/// Whether a query for all totals by a group gives this table over no rows.
fn gives_of_none(alloc: Global, group: &[u32], wanted: &str) -> Result<bool, AllocError> {
    let items = [
        BoundItem::Sum(0),
        BoundItem::Min(0),
        BoundItem::Max(0),
        BoundItem::Avg(0),
        BoundItem::Count,
    ];
    let query = query(alloc, group, &items)?;
    gives(alloc, &query, &NameLists::new(alloc), &[], wanted)
}

#[test]
fn no_rows(rt: HostRuntime) {
    let alloc = rt.alloc();
    assert!(rt;
        gives_of_none(alloc, &[], "NULL NULL NULL NULL 0") == Ok(true),
        "one line"
    );
    assert!(rt; gives_of_none(alloc, &[1], "") == Ok(true), "no line");
}
