//! The lines of a SELECT.

ghost use Rattle.std.specs.Prelude.{IfOk};
ghost use Rattle.select_lines.specs.Selects.{AreSelectLines, HasSelect};

use agg_fold::Partial;
use cube_values::{BoundQuery, NameLists, Table, TopPlan};
use query_plan::statements_are_bound_to_what_they_ask;
use std::alloc::{AllocError, Global};
use top_rows::first_rows;

/// The lines that a SELECT is answered with, from what was folded of the rows that its query takes: the first
/// lines, by its tests, its keys and its limit, of the answer to the statement over the rows of values that the rows by
/// coordinates stand for. `names` has the texts by which the statement was bound and the rows are read. The only
/// error is out of memory.
pub fn select_lines(
    alloc: Global,
    partial: &Partial,
    query: &BoundQuery,
    names: &NameLists,
    plan: &TopPlan,
) -> Result<Table, AllocError>
    requires { HasSelect names.now query.now plan.now partial.now.groups }
    ensures { IfOk result (AreSelectLines names.now query.now plan.now partial.now.groups) }
{
    statements_are_bound_to_what_they_ask();
    let table = partial.finish(query, names)?;
    Ok(first_rows(alloc, table, plan)?)
}
