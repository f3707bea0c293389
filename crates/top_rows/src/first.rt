//! The first lines of a table.

ghost use Rattle.std.specs.Prelude.{◌≡◌, IfOk};
ghost use Rattle.cube_values.specs.First.{up_to, first_rows};
ghost use Rattle.top_rows.specs.Order.{HaveComparableFields, is_before, items_by};

use crate::bounds::passes_all;
use crate::listed::{least_lines, sort_lines};
use cube_values::{BoundKey, Line, Table, TopPlan};
use std::alloc::{AllocError, Global};

/// Lines in the order of keys, up to a limit. Where the limit lets a line fall off, no more lines than it
/// allows are held in order; else they are sorted.
fn lines_up_to(
    alloc: Global,
    lines: Vec<Line>,
    keys: &[BoundKey],
    limit: Option<u64>,
) -> Result<Vec<Line>, AllocError>
    ensures { IfOk result
        (λ first. first.items ≡ up_to limit (items_by (is_before keys.now) lines.items)) }
{
    if let Some(limit) = limit {
        if limit < lines.len() as u64 {
            return least_lines(alloc, lines, keys, limit as usize);
        }
    }
    let mut sorted = lines;
    sort_lines(&mut sorted, keys)?;
    Ok(sorted)
}

/// The lines of a table that pass every test of a plan, in the order of its keys, up to its limit. Lines
/// that are alike stay in the table's order, whichever way a key goes. No line is copied. At the place of
/// a key the table has fields of one variant.
///
/// For n lines and a limit of k this takes O(n log k) comparisons and room for k lines. A line that is put
/// among the first moves the handles of those after it, at most k of them.
pub fn first_rows(alloc: Global, table: Table, plan: &TopPlan) -> Result<Table, AllocError>
    requires { HaveComparableFields plan.now.keys table }
    ensures { IfOk result (λ first. first ≡ first_rows plan.now table) }
{
    let tests = plan.having.as_slice();
    let mut lines = table.into_vec();
    lines.retain(|line| passes_all(tests, line.as_slice()));
    let first = lines_up_to(alloc, lines, plan.keys.as_slice(), plan.limit)?;
    Ok(Table::from_vec(first))
}
