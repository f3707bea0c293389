//! What statements ask by coordinates, worked out by hand.

use crate::cubes::{asks_rows, deletes_rows, names_of_three, puts_rows, statement_of, three_cubes};
use cube_schema::Schema;
use cube_values::{Bound, BoundItem, BoundKey, BoundQuery, Span, TopPlan, Value};
use query_plan::{
    RowPlan, bind_delete, bind_rows, bind_select, bind_top, bindings_have_all_parts, span_of,
    statements_are_bound_to_what_they_ask,
};
use std::alloc::Global;
use std::process::Abort;
use std::test::*;

fn query_of(rt: &impl Abort, alloc: Global, cubes: &[Schema], text: &str) -> BoundQuery {
    let statement = statement_of(rt, alloc, text);
    let names = names_of_three(rt, alloc);
    assert!(rt; asks_rows(&statement));
    bind_select(alloc, &statement, cubes, &names).expect(rt, "a query")
}

/// The span of a deletion, by codes for its texts.
fn deletion_span(
    rt: &impl Abort,
    alloc: Global,
    cubes: &[Schema],
    text: &str,
    codes: &[Option<u32>],
) -> Span {
    let statement = statement_of(rt, alloc, text);
    assert!(rt; deletes_rows(&statement));
    let plan = bind_delete(alloc, &statement, cubes).expect(rt, "a deletion");
    span_of(alloc, &plan, cubes, codes).expect(rt, "memory")
}

/// Whether a span has exactly those coordinates of one dimension at whose place stands a 1.
fn is_span(span: &Span, shown: &str) -> bool {
    let mut coord = 0u32;
    for byte in shown.as_bytes() {
        if span.has(&[coord]) != (*byte == b'1') {
            return false;
        }
        coord = coord.saturating_add(1);
    }
    true
}

/// Conditions on x, of five coordinates, with which of them a query takes.
const TAKEN: &str = "\
x = 4 | 00001
x = 5 | 00000
x IN (-9223372036854775808, 9223372036854775807, 0) | 10000
x BETWEEN 3 AND 1 | 00000
x BETWEEN 3 AND 9223372036854775807 | 00011
x BETWEEN -9223372036854775808 AND -1 | 00000
x IN (4, 3) AND x BETWEEN 1 AND 3 | 00010";

fn takes(rt: &impl Abort, alloc: Global, cubes: &[Schema], condition: &str, shown: &str) -> bool {
    let text = format!(in alloc; "SELECT COUNT(*) FROM t WHERE {condition}").expect(rt, "memory");
    let query = query_of(rt, alloc, cubes, text.as_str());
    query.cube == 1 && is_span(&query.span, shown)
}

fn takes_all(rt: &impl Abort, alloc: Global, cubes: &[Schema]) {
    for row in TAKEN.lines() {
        let (condition, shown) = row.split_once(" | ").expect(rt, "a condition");
        assert!(rt; takes(rt, alloc, cubes, condition, shown), "{row}");
    }
}

#[test]
fn spans_of_queries(rt: HostRuntime) {
    let alloc = rt.alloc();
    let cubes = three_cubes(&rt, alloc);
    takes_all(&rt, alloc, cubes.as_slice());
}

// Whether a span has the first and the third of four regions, and no coordinates of one dimension alone.
fn has_two_regions(span: &Span) -> bool {
    for region in 0..4 {
        if span.has(&[region, 3]) != (region == 0 || region == 2) {
            return false;
        }
    }
    !span.has(&[0])
}

// Whether a query asks for the gender, the sum of comments, the region and the count.
fn asks_by_places(query: &BoundQuery) -> bool {
    let [gender, sum, region, count] = query.items.as_slice() else {
        return false;
    };
    query.cube == 0
        && query.group.as_slice() == [1, 0].as_slice()
        && *gender == BoundItem::Group(1)
        && *sum == BoundItem::Sum(1)
        && *region == BoundItem::Group(0)
        && *count == BoundItem::Count
}

#[test]
fn a_query_by_places(rt: HostRuntime) {
    let alloc = rt.alloc();
    let cubes = three_cubes(&rt, alloc);
    let text = "SELECT gender, SUM(comments), region, COUNT(*) FROM visits \
        WHERE region IN ('WA', 'OR', 'CA') GROUP BY gender, region";
    let query = query_of(&rt, alloc, cubes.as_slice(), text);
    assert!(rt; asks_by_places(&query) && has_two_regions(&query.span));
}

// Whether a deletion by a condition on x drops the coordinates that are shown.
fn drops(rt: &impl Abort, alloc: Global, cubes: &[Schema], text: &str, shown: &str) -> bool {
    let span = deletion_span(rt, alloc, cubes, text, &[]);
    is_span(&span, shown)
}

// Whether a span has 2 and 3 of the last two of three texts.
fn has_two_of_two(span: &Span) -> bool {
    for x in 0..5 {
        let is_dropped = x == 2 || x == 3;
        if span.has(&[0, x]) || span.has(&[1, x]) != is_dropped || span.has(&[2, x]) != is_dropped {
            return false;
        }
    }
    true
}

fn drops_two_of_two(rt: &impl Abort, alloc: Global, cubes: &[Schema]) -> bool {
    let text = "DELETE FROM c WHERE r IN ('b', 'long', 'a') AND x IN (2, 3)";
    let span = deletion_span(rt, alloc, cubes, text, &[Some(1), None, Some(2)]);
    has_two_of_two(&span)
}

#[test]
fn spans_of_deletions(rt: HostRuntime) {
    let alloc = rt.alloc();
    let cubes = three_cubes(&rt, alloc);
    let all = cubes.as_slice();
    let low = "DELETE FROM t WHERE x BETWEEN 0 AND 1";
    assert!(rt; drops(&rt, alloc, all, low, "11000"));
    assert!(rt; drops(&rt, alloc, all, "DELETE FROM t WHERE x = 4", "00001"));
    assert!(rt; drops_two_of_two(&rt, alloc, all));
}

fn rows_of(rt: &impl Abort, alloc: Global, cubes: &[Schema], text: &str) -> RowPlan {
    let statement = statement_of(rt, alloc, text);
    assert!(rt; puts_rows(&statement));
    bind_rows(alloc, &statement, cubes).expect(rt, "rows")
}

fn is_text(value: Option<&Value>, wanted: &str) -> bool {
    match value {
        Some(Value::Text(text)) => text.as_str() == wanted,
        _ => false,
    }
}

// Whether a plan has two rows for the third cube: a and -7, and the empty text.
fn has_two_rows(plan: &RowPlan) -> bool {
    let [first, second] = plan.rows.as_slice() else {
        return false;
    };
    plan.cube == 2
        && is_text(first.dims.as_slice().first(), "a")
        && is_text(second.dims.as_slice().first(), "")
        && first.metrics.as_slice() == [-7].as_slice()
}

#[test]
fn rows_by_columns(rt: HostRuntime) {
    let alloc = rt.alloc();
    let cubes = three_cubes(&rt, alloc);
    let text = "INSERT INTO c VALUES ('a', 4, -7), ('', 0, 8)";
    let plan = rows_of(&rt, alloc, cubes.as_slice(), text);
    assert!(rt; has_two_rows(&plan));
}

#[test]
fn a_file_has_no_rows_yet(rt: HostRuntime) {
    let alloc = rt.alloc();
    let cubes = three_cubes(&rt, alloc);
    let loaded = rows_of(&rt, alloc, cubes.as_slice(), "LOAD t FROM 'f' REJECT 0");
    assert!(rt; loaded.cube == 1 && loaded.rows.is_empty());
}

fn plan_of(rt: &impl Abort, alloc: Global, text: &str) -> TopPlan {
    let statement = statement_of(rt, alloc, text);
    bind_top(alloc, &statement).expect(rt, "memory")
}

// Whether lines whose item 1 is 5 to 7 come by item 2 down and then by item 1, two at most.
fn has_two_keys(plan: &TopPlan) -> bool {
    let [test] = plan.having.as_slice() else {
        return false;
    };
    let [first, second] = plan.keys.as_slice() else {
        return false;
    };
    test.place == 1
        && test.bound == Bound::Between(5, 7)
        && *first
            == BoundKey {
                place: 2,
                desc: true,
            }
        && *second
            == BoundKey {
                place: 1,
                desc: false,
            }
        && plan.limit == Some(2)
}

#[test]
fn lines_that_are_asked_for(rt: HostRuntime) {
    let text = "SELECT region, SUM(likes), COUNT(*), SUM(likes) FROM visits GROUP BY region \
        HAVING SUM(likes) BETWEEN 5 AND 7 ORDER BY COUNT(*) DESC, SUM(likes) LIMIT 2";
    let plan = plan_of(&rt, rt.alloc(), text);
    assert!(rt; has_two_keys(&plan));
}

#[test]
fn a_deletion_asks_for_no_lines(rt: HostRuntime) {
    let plan = plan_of(&rt, rt.alloc(), "DELETE FROM t WHERE x = 4");
    assert!(rt; plan.having.is_empty() && plan.keys.is_empty() && plan.limit == None);
}

#[test]
fn the_laws_do_nothing() {
    statements_are_bound_to_what_they_ask();
    bindings_have_all_parts();
}
