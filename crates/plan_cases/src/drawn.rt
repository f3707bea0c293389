//! Some thousands of drawn statements over a small cube with a dimension of texts and one of numbers, whose last
//! range is short: spans and answers against a plain reading of the conditions over values.

ghost use Rattle.query_plan.specs.Bindings.{IsSomeDropPlan};

use crate::cubes::{asks_rows, deletes_rows, names_of_three, statement_of, three_cubes};
use cube_schema::Schema;
use cube_values::{
    BoundItem, BoundItems, BoundQuery, CallError, Conditions, Coords, NameLists, Numbers, Query,
    Region, Row, Span, StoredRow, Table, Text, Value, Values,
};
use plain_history::answer;
use query_plan::{BindFault, DropPlan, Misfit, bind_delete, bind_select, span_of};
use std::alloc::{AllocError, Global};
use std::process::Abort;
use std::test::*;

/// Numbers that look as if drawn by chance, the same in each run (the quick generator of Numerical Recipes).
#[derive(Drop)]
struct Draws {
    state: u32,
}

impl Draws {
    /// A number below another.
    fn below(&mut self, n: u32) -> u32 {
        self.state = self.state.wrapping_mul(1664525).wrapping_add(1013904223);
        let high = self.state >> 16;
        high.checked_rem(n).unwrap_or(0)
    }

    /// A number from -1 to 6.
    fn number(&mut self) -> i64 {
        i64::from(self.below(8)) - 1
    }
}

/// A condition: on `r`, whose text has a number below 3, or on `x`.
#[derive(Clone, Copy)]
enum Asked {
    Is(u32),
    IsOneOf(u32, u32),
    Equals(i64),
    IsAmong(i64, i64),
    Lies(i64, i64),
}

fn drawn(draws: &mut Draws) -> Asked {
    match draws.below(5) {
        0 => Asked::Is(draws.below(3)),
        1 => Asked::IsOneOf(draws.below(3), draws.below(3)),
        2 => Asked::Equals(draws.number()),
        3 => Asked::IsAmong(draws.number(), draws.number()),
        _ => Asked::Lies(draws.number(), draws.number()),
    }
}

/// Whether a row passes whose `r` is the text of a number, and whose `x` is a number.
fn passes(asked: Asked, r: u32, x: i64) -> bool {
    match asked {
        Asked::Is(a) => r == a,
        Asked::IsOneOf(a, b) => r == a || r == b,
        Asked::Equals(n) => x == n,
        Asked::IsAmong(a, b) => x == a || x == b,
        Asked::Lies(a, b) => a <= x && x <= b,
    }
}

fn passes_all(asked: &[Asked], r: u32, x: u32) -> bool {
    asked.iter().all(|one| passes(*one, r, i64::from(x)))
}

/// The texts of the cube are a and b; z is none of them.
fn text_of(number: u32) -> &'static str {
    match number {
        0 => "a",
        1 => "b",
        _ => "z",
    }
}

fn condition_text(alloc: Global, asked: Asked) -> Result<String, AllocError> {
    match asked {
        Asked::Is(a) => {
            let a = text_of(a);
            format!(in alloc; "r = '{a}'")
        }
        Asked::IsOneOf(a, b) => {
            let a = text_of(a);
            let b = text_of(b);
            format!(in alloc; "r IN ('{a}', '{b}')")
        }
        Asked::Equals(n) => format!(in alloc; "x = {n}"),
        Asked::IsAmong(a, b) => format!(in alloc; "x IN ({a}, {b})"),
        Asked::Lies(a, b) => format!(in alloc; "x BETWEEN {a} AND {b}"),
    }
}

/// The conditions of a statement, with `WHERE` before them where there are some.
fn where_text(rt: &impl Abort, alloc: Global, asked: &[Asked]) -> String {
    let mut text = String::new(alloc);
    let mut word = " WHERE ";
    for one in asked {
        let condition = condition_text(alloc, *one).expect(rt, "memory");
        text.push_str(word).expect(rt, "memory");
        text.push_str(condition.as_str()).expect(rt, "memory");
        word = " AND ";
    }
    text
}

/// Whether a span has exactly those coordinates of the cube that pass.
fn has_wanted(span: &Span, asked: &[Asked]) -> bool {
    for r in 0..2 {
        for x in 0..5 {
            if span.has(&[r, x]) != passes_all(asked, r, x) {
                return false;
            }
        }
    }
    true
}

fn row_of(alloc: Global, r: u32, x: u32) -> Result<StoredRow, AllocError> {
    let mut dims = Values::new(alloc);
    dims.push(Value::Text(Text::new(alloc, text_of(r))?))?;
    dims.push(Value::Int(i64::from(x)))?;
    let mut metrics = Numbers::new(alloc);
    metrics.push(i64::from(r) * 100 - i64::from(x) * 7)?;
    Ok(StoredRow {
        cube: Text::new(alloc, "c")?,
        row: Row { dims, metrics },
    })
}

/// The rows that pass, one for each of their coordinates.
fn rows_of(rt: &impl Abort, alloc: Global, asked: &[Asked]) -> Vec<StoredRow> {
    let mut rows = Vec::new(alloc);
    for r in 0..2 {
        for x in 0..5 {
            if passes_all(asked, r, x) {
                let row = row_of(alloc, r, x).expect(rt, "memory");
                rows.push(row).expect(rt, "memory");
            }
        }
    }
    rows
}

/// What a SELECT groups by.
#[derive(Clone, Copy)]
struct Grouping {
    /// Its first items.
    items: &'static str,
    clause: &'static str,
    places: &'static [u32],
}

fn grouping_of(number: u32) -> Grouping {
    match number {
        0 => Grouping {
            items: "",
            clause: "",
            places: &[],
        },
        1 => Grouping {
            items: "r, ",
            clause: " GROUP BY r",
            places: &[0],
        },
        2 => Grouping {
            items: "x, ",
            clause: " GROUP BY x",
            places: &[1],
        },
        _ => Grouping {
            items: "x, r, ",
            clause: " GROUP BY x, r",
            places: &[1, 0],
        },
    }
}

/// The places of the group, a count and a sum.
fn items_by_hand(alloc: Global, places: &[u32]) -> Result<BoundItems, AllocError> {
    let mut items = BoundItems::new(alloc);
    for place in places {
        items.push(BoundItem::Group(*place))?;
    }
    items.push(BoundItem::Count)?;
    items.push(BoundItem::Sum(0))?;
    Ok(items)
}

/// All rows of `c`, in groups.
fn grouped(rt: &impl Abort, alloc: Global, group: Coords, items: BoundItems) -> Query {
    Query {
        region: Region {
            cube: Text::new(alloc, "c").expect(rt, "memory"),
            conditions: Conditions::new(alloc),
        },
        group,
        items,
    }
}

fn table_over(rt: &impl Abort, alloc: Global, query: &Query, rows: &[StoredRow]) -> Table {
    let mut lent = Vec::new(alloc);
    for row in rows {
        lent.push(row).expect(rt, "memory");
    }
    answer(alloc, query, lent.as_slice()).expect(rt, "memory")
}

fn query_by_hand(rt: &impl Abort, alloc: Global, places: &[u32]) -> Query {
    let group = Vec::from_slice(alloc, places).expect(rt, "memory");
    let items = items_by_hand(alloc, places).expect(rt, "memory");
    grouped(rt, alloc, Coords::from_vec(group), items)
}

fn select_text(rt: &impl Abort, alloc: Global, asked: &[Asked], by: Grouping) -> String {
    let conditions = where_text(rt, alloc, asked);
    let items = by.items;
    let group = by.clause;
    format!(in alloc; "SELECT {items}COUNT(*), SUM(m) FROM c{conditions}{group}").expect(
        rt, "memory",
    )
}

fn bound_query(
    rt: &impl Abort,
    alloc: Global,
    cubes: &[Schema],
    names: &NameLists,
    text: &str,
) -> BoundQuery {
    let statement = statement_of(rt, alloc, text);
    assert!(rt; asks_rows(&statement));
    bind_select(alloc, &statement, cubes, names).expect(rt, "a query")
}

/// Whether a SELECT of these conditions takes the rows that pass and gives their table.
fn select_agrees(
    rt: &impl Abort,
    alloc: Global,
    cubes: &[Schema],
    names: &NameLists,
    asked: &[Asked],
    by: Grouping,
) -> bool {
    let text = select_text(rt, alloc, asked, by);
    let bound = bound_query(rt, alloc, cubes, names, text.as_str());
    if !has_wanted(&bound.span, asked) {
        return false;
    }
    let rows = rows_of(rt, alloc, asked);
    let by_places = grouped(rt, alloc, bound.group, bound.items);
    let by_hand = query_by_hand(rt, alloc, by.places);
    let found = table_over(rt, alloc, &by_places, rows.as_slice());
    let wanted = table_over(rt, alloc, &by_hand, rows.as_slice());
    found == wanted
}

fn is_on_numbers(asked: Asked) -> bool {
    match asked {
        Asked::Is(_) | Asked::IsOneOf(_, _) => false,
        Asked::Equals(_) | Asked::IsAmong(_, _) | Asked::Lies(_, _) => true,
    }
}

/// Whether the conditions on `x` pass a number.
fn numbers_pass(asked: &[Asked], x: i64) -> bool {
    asked
        .iter()
        .all(|one| !is_on_numbers(*one) || passes(*one, 0, x))
}

/// The ranges of `x` are 0 and 1, 2 and 3, and 4 alone.
fn cuts_range(asked: &[Asked]) -> bool {
    numbers_pass(asked, 0) != numbers_pass(asked, 1)
        || numbers_pass(asked, 2) != numbers_pass(asked, 3)
}

fn push_code(rt: &impl Abort, codes: &mut Vec<Option<u32>>, number: u32) {
    let code = if number < 2 { Some(number) } else { None };
    codes.push(code).expect(rt, "memory");
}

/// The codes of the texts of conditions.
fn codes_of(rt: &impl Abort, alloc: Global, asked: &[Asked]) -> Vec<Option<u32>> {
    let mut codes = Vec::new(alloc);
    for one in asked {
        match *one {
            Asked::Is(a) => push_code(rt, &mut codes, a),
            Asked::IsOneOf(a, b) => {
                push_code(rt, &mut codes, a);
                push_code(rt, &mut codes, b);
            }
            _ => {}
        }
    }
    codes
}

fn cuts_x(fault: &CallError<BindFault>) -> bool {
    match fault {
        CallError::Fault(
            BindFault::Unfit {
                misfit: Misfit::CutsBrick { name },
            },
        ) => name.as_str() == "x",
        _ => false,
    }
}

fn delete_text(rt: &impl Abort, alloc: Global, asked: &[Asked]) -> String {
    let conditions = where_text(rt, alloc, asked);
    format!(in alloc; "DELETE FROM c{conditions}").expect(rt, "memory")
}

fn deletes_wanted(
    rt: &impl Abort,
    alloc: Global,
    plan: &DropPlan,
    cubes: &[Schema],
    asked: &[Asked],
) -> bool
    requires { IsSomeDropPlan cubes.now plan.now }
{
    let codes = codes_of(rt, alloc, asked);
    let span = span_of(alloc, plan, cubes, codes.as_slice()).expect(rt, "memory");
    has_wanted(&span, asked)
}

/// Whether a DELETE of these conditions is refused where it cuts a range, and else drops the rows that pass.
fn delete_agrees(rt: &impl Abort, alloc: Global, cubes: &[Schema], asked: &[Asked]) -> bool {
    let text = delete_text(rt, alloc, asked);
    let statement = statement_of(rt, alloc, text.as_str());
    assert!(rt; deletes_rows(&statement));
    match bind_delete(alloc, &statement, cubes) {
        Ok(plan) => !cuts_range(asked) && deletes_wanted(rt, alloc, &plan, cubes, asked),
        Err(fault) => cuts_range(asked) && cuts_x(&fault),
    }
}

fn drawn_conditions(rt: &impl Abort, alloc: Global, draws: &mut Draws) -> Vec<Asked> {
    let mut asked = Vec::new(alloc);
    for _ in 0..draws.below(4) {
        asked.push(drawn(draws)).expect(rt, "memory");
    }
    asked
}

#[test]
fn drawn_statements(rt: HostRuntime) {
    let alloc = rt.alloc();
    let cubes = three_cubes(&rt, alloc);
    let cubes = cubes.as_slice();
    let names = names_of_three(&rt, alloc);
    let mut draws = Draws { state: 20 };
    for round in 0..2000 {
        let asked = drawn_conditions(&rt, alloc, &mut draws);
        let asked = asked.as_slice();
        let by = grouping_of(round % 4);
        assert!(rt;
            select_agrees(&rt, alloc, cubes, &names, asked, by),
            "select {round}"
        );
        if !asked.is_empty() {
            assert!(rt; delete_agrees(&rt, alloc, cubes, asked), "delete {round}");
        }
    }
}
