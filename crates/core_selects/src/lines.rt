//! The lines of what was found.

ghost use Rattle.std.specs.Prelude.{IfOk};
ghost use Rattle.agg_fold.specs.Standing.{HasRoom};
ghost use Rattle.core_selects.specs.ReadLines.{AreFirstOfTable};
ghost use Rattle.condition_spans.specs.Codes.{lists_at};

use crate::binding::query_at;
use agg_fold::Partial;
use cube_language::Statement;
use cube_values::{BoundQuery, NameLists, Table};
use query_plan::bind_top;
use std::alloc::{AllocError, Global};
use top_rows::first_rows;

/// The first lines, as a statement asks for them, of the table of what was found. The names are those of the one cube that
/// there is. The only error is out of memory.
pub(crate) fn lines_of(
    alloc: Global,
    found: &Partial,
    query: BoundQuery,
    names: &NameLists,
    statement: &Statement,
) -> Result<Table, AllocError>
    requires { HasRoom query 0 found.now.groups }
    ensures { IfOk result
        (AreFirstOfTable statement.now (lists_at names.now 0) query found.now.groups) }
{
    let asked = query_at(0, query);
    let table = found.finish(&asked, names)?;
    let plan = bind_top(alloc, statement)?;
    Ok(first_rows(alloc, table, &plan)?)
}
