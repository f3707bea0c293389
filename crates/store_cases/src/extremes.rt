//! Bricks of the greatest range, of the most dimensions and of none, worked out by hand.

use crate::making::{batch_of, brick_of_steps, query, reader, shape_of, table};
use crate::tables::{has_lines, numbers_of};
use cube_values::{BoundItem, BoundQuery, CodedRows, NameLists, Part, Shape, Table};
use std::alloc::Global;
use std::process::Abort;

// For each combination of coordinates in some dimensions how many rows of the parts there are and their sum. There is a
// part for each dimension, all but the last of them whole.
fn query_of(rt: &impl Abort, alloc: Global, dims: usize, last: Part, group: &str) -> BoundQuery {
    let mut parts = Vec::new(alloc);
    for _ in 1..dims {
        parts.push(Part::All).expect(rt, "memory");
    }
    if dims > 0 {
        parts.push(last).expect(rt, "memory");
    }
    let group = numbers_of(rt, alloc, group);
    let asked = [BoundItem::Count, BoundItem::Sum(0)];
    query(alloc, parts, group.as_slice(), &asked).expect(rt, "memory")
}

// What a brick of the rows of a batch answers.
fn answer_of(
    rt: &impl Abort,
    alloc: Global,
    shape: &Shape,
    number: u64,
    batch: &CodedRows,
    query: &BoundQuery,
) -> Table {
    let steps = [(1, batch.len())];
    let brick = brick_of_steps(rt, alloc, shape, number, batch, &steps);
    let names = NameLists::new(alloc);
    table(rt, alloc, &brick, shape, query, &reader(1), &names)
}

// A brick, its rows, what is asked of it and the lines of the answer.
#[derive(Clone, Copy)]
struct Case<'a> {
    sizes: &'a str,
    number: u64,
    rows: &'a str,
    group: &'a str,
    lines: &'a str,
}

// Whether the brick answers with these lines.
fn answers(rt: &impl Abort, alloc: Global, case: Case, last: Part) -> bool {
    let shape = shape_of(rt, alloc, case.sizes);
    let dims = shape.sizes.len();
    let batch = batch_of(rt, alloc, dims, case.rows);
    let query = query_of(rt, alloc, dims, last, case.group);
    let table = answer_of(rt, alloc, &shape, case.number, &batch, &query);
    has_lines(&table, case.lines)
}

#[test]
fn the_greatest_range_is_one_brick(rt: HostRuntime) {
    let all = Case {
        sizes: "4294967295:4294967295",
        number: 0,
        rows: "4294967294 | 1, 0 | 2, 4294967294 | 4, 2147483648 | 8",
        group: "0",
        lines: "0 1 2, 2147483648 1 8, 4294967294 2 5",
    };
    let upper = Case {
        group: "",
        lines: "3 13",
        ..all
    };
    assert!(rt; answers(&rt, rt.alloc(), all, Part::All));
    assert!(rt; answers(&rt, rt.alloc(), upper, Part::Between(1, u32::MAX)));
}

// Sixteen dimensions with two ranges in each, of coordinates 0 and 1 and of 2 alone.
const SIXTEEN: &str = "3:2 3:2 3:2 3:2 3:2 3:2 3:2 3:2 3:2 3:2 3:2 3:2 3:2 3:2 3:2 3:2";

#[test]
fn sixteen_dimensions_have_bricks(rt: HostRuntime) {
    let all = Case {
        sizes: SIXTEEN,
        number: 0,
        rows: "0 0 0 0 0 0 0 0 0 0 0 0 0 0 0 0 | 1, 1 1 1 1 1 1 1 1 1 1 1 1 1 1 1 1 | 2, \
            0 0 0 0 0 0 0 0 0 0 0 0 0 0 0 1 | 4, 1 0 0 0 0 0 0 0 0 0 0 0 0 0 0 0 | 8",
        group: "15 0",
        lines: "0 0 1 1, 0 1 1 8, 1 0 1 4, 1 1 1 2",
    };
    let ones = Case {
        group: "0",
        lines: "0 1 4, 1 1 2",
        ..all
    };
    assert!(rt; answers(&rt, rt.alloc(), all, Part::All));
    assert!(rt; answers(&rt, rt.alloc(), ones, Part::Between(1, 1)));
}

#[test]
fn the_last_brick_has_short_ranges(rt: HostRuntime) {
    let all = Case {
        sizes: SIXTEEN,
        number: 65_535,
        rows: "2 2 2 2 2 2 2 2 2 2 2 2 2 2 2 2 | 5, 2 2 2 2 2 2 2 2 2 2 2 2 2 2 2 2 | 6",
        group: "7",
        lines: "2 2 11",
    };
    assert!(rt; answers(&rt, rt.alloc(), all, Part::All));
}

#[test]
fn no_dimension_has_one_brick(rt: HostRuntime) {
    let all = Case {
        sizes: "",
        number: 0,
        rows: "| 5, | -7, | 9",
        group: "",
        lines: "3 7",
    };
    assert!(rt; answers(&rt, rt.alloc(), all, Part::All));
}

#[test]
fn numbers_on_both_sides_of_2_to_the_41_are_summed(rt: HostRuntime) {
    let within = Case {
        sizes: "5:5",
        number: 0,
        rows: "0 | 2199023255551, 1 | -2199023255551, 4 | 7, 0 | -1, 1 | 0, 4 | -7, 4 | 3, 2 | 5, 0 | 1",
        group: "0",
        lines: "0 3 2199023255551, 1 2 -2199023255551, 2 1 5, 4 3 3",
    };
    let beyond = Case {
        rows: "3 | 2199023255552, 0 | -2199023255552, 3 | 2199023255552, 0 | -2199023255552, \
            3 | 9223372036854775807",
        lines: "0 2 -4398046511104, 3 3 9223376434901286911",
        ..within
    };
    assert!(rt; answers(&rt, rt.alloc(), within, Part::All));
    assert!(rt; answers(&rt, rt.alloc(), beyond, Part::All));
}
