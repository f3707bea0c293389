//! The answer to a query.

ghost use Rattle.std.specs.Prelude.{◌≡◌, [], ◌∷◌, map, filter, IfOk};
ghost use Rattle.cube_values.specs.Regions.{region_has};
ghost use Rattle.cube_values.specs.Answer.{key_of, item_of, table_of, answer};
ghost use Rattle.plain_history.specs.Tables.{line_of_key};

use crate::fields::line_of;
use crate::groups::{firsts_of, rows_like};
use crate::regions::region_has;
use cube_values::{BoundItem, Line, Query, Region, Row, Sequence, StoredRow, Table};
use std::alloc::{AllocError, Global};

/// The answer to a query over rows: a line for each group of the rows of its region, by rising keys.
/// The only error is that memory runs out.
pub fn answer(alloc: Global, query: &Query, rows: &[&StoredRow]) -> Result<Table, AllocError>
    ensures { IfOk result (λ table. table ≡ answer query.now (map (λ r. r.now) rows.now)) }
{
    let taken = rows_of(alloc, &query.region, rows)?;
    table_of(
        alloc,
        query.group.as_slice(),
        query.items.as_slice(),
        taken.as_slice(),
    )
}

/// The rows that a region has.
fn rows_of<'a>(
    alloc: Global,
    region: &Region,
    rows: &[&'a StoredRow],
) -> Result<Vec<&'a Row>, AllocError>
    ensures { IfOk result (λ taken. map (λ r. r.now) taken.items
        ≡ map (λ stored. stored.row) (filter (region_has region.now) (map (λ r. r.now) rows.now))) }
{
    let mut taken = Vec::new(alloc);
    for stored in rows {
        if region_has(region, stored) {
            taken.push(&stored.row)?;
        }
    }
    Ok(taken)
}

/// A line for each key of the rows. Without a group all rows make one line, and no key is looked at.
fn table_of(
    alloc: Global,
    group: &[u32],
    items: &[BoundItem],
    rows: &[&Row],
) -> Result<Table, AllocError>
    ensures { IfOk result (λ table. table
        ≡ table_of group.now items.now (map (λ r. r.now) rows.now)) }
{
    match group {
        [] => one_line(alloc, items, rows),
        _ => {
            let firsts = firsts_of(alloc, group, rows)?;
            table_lines(alloc, group, items, rows, firsts.as_slice())
        }
    }
}

/// All rows in one line.
fn one_line(alloc: Global, items: &[BoundItem], rows: &[&Row]) -> Result<Table, AllocError>
    ensures { IfOk result (λ table. table
        ≡ map (item_of (map (λ r. r.now) rows.now)) items.now ∷ []) }
{
    let mut lines = Vec::new(alloc);
    lines.push(line_of(alloc, items, rows)?)?;
    Ok(Sequence::from_vec(lines))
}

/// A line for the key of each first row.
fn table_lines(
    alloc: Global,
    group: &[u32],
    items: &[BoundItem],
    rows: &[&Row],
    firsts: &[&Row],
) -> Result<Table, AllocError>
    ensures { IfOk result (λ table. table
        ≡ map (line_of_key group.now items.now (map (λ r. r.now) rows.now))
        (map (λ r. key_of group.now r.now) firsts.now)) }
{
    let mut lines = Vec::new(alloc);
    for first in firsts {
        lines.push(group_line(alloc, group, items, rows, first)?)?;
    }
    Ok(Sequence::from_vec(lines))
}

/// The line of the rows that have the key of the first one.
fn group_line(
    alloc: Global,
    group: &[u32],
    items: &[BoundItem],
    rows: &[&Row],
    first: &Row,
) -> Result<Line, AllocError>
    ensures { IfOk result (λ line. line
        ≡ line_of_key group.now items.now (map (λ r. r.now) rows.now)
        (key_of group.now first.now)) }
{
    let like = rows_like(alloc, group, rows, first)?;
    line_of(alloc, items, like.as_slice())
}
