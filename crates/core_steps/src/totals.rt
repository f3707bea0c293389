//! The totals that a query finds.
ghost use Rattle.std.specs.Prelude.{◌≡◌, ◌∷◌, [], IfSome};
ghost use Rattle.agg_fold.specs.Standing.{HasRoom};
ghost use Rattle.core_steps.specs.Totals.{HasTotals, line_of, sum_field};
ghost use Rattle.cube_values.specs.declared.table.Field.TheVariants as field;

use agg_fold::Partial;
use cube_values::{BoundQuery, Field, Line, NameLists, Table};
use std::alloc::Global;

/// How many rows there are, and the sum of their first metric. Over no rows there is no sum.
#[derive(Clone, Copy)]
pub struct Totals {
    pub rows: i128,
    pub sum: Option<i128>,
}

fn whole_in(item: &Field) -> Option<i128>
    ensures { IfSome result (λ n. item.now ≡ field.Whole n) }
{
    match item {
        Field::Whole(n) => Some(*n),
        _ => None,
    }
}

fn sum_in(item: &Field) -> Option<Option<i128>>
    ensures { IfSome result (λ sum. item.now ≡ sum_field sum) }
{
    match item {
        Field::Whole(n) => Some(Some(*n)),
        Field::Null => Some(None),
        _ => None,
    }
}

fn line_totals(line: &Line) -> Option<Totals>
    ensures { IfSome result (λ t. line.now ≡ line_of t) }
{
    let [rows, sum] = line.as_slice() else {
        return None;
    };
    let rows = whole_in(rows)?;
    let sum = sum_in(sum)?;
    Some(Totals { rows, sum })
}

fn table_totals(table: &Table) -> Option<Totals>
    ensures { IfSome result (λ t. table.now ≡ line_of t ∷ []) }
{
    let [line] = table.as_slice() else {
        return None;
    };
    line_totals(line)
}

/// The totals of the rows for which a partial stands. None: the query asks for others, or memory ran out.
pub(crate) fn totals_found(alloc: Global, query: &BoundQuery, found: &Partial) -> Option<Totals>
    requires { HasRoom query.now 0 found.now.groups }
    ensures { IfSome result (HasTotals query.now found.now.groups) }
{
    let table = found.finish(query, &NameLists::new(alloc)).ok()?;
    table_totals(&table)
}
