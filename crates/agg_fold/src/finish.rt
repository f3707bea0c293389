//! The table of groups, by the values of their keys.

ghost use Rattle.std.specs.Prelude.{◌≡◌, ◌<◌, List, length, IfOk};
ghost use Rattle.cube_values.specs.declared.row.CodedRow.{CodedRow};
ghost use Rattle.cube_values.specs.Values.{values_cmp};
ghost use Rattle.agg_fold.specs.Coded.{texts_for};
ghost use Rattle.agg_fold.specs.Standing.{HasRoom, IsTable};
ghost use Rattle.agg_fold.specs.Tables.{groups_named, HasNamed, AreTableLines, HasRun, IsRunLine, IsRun};

use crate::groups::Groups;
use crate::line::{decoded_key, empty_line, line_for};
use crate::tallies::{add_all, chunk, push_empty};
use crate::tally::Tally;
use cube_values::{BoundQuery, Line, NameLists, Table, Texts, Value, Values};
use std::alloc::{AllocError, Global};
use std::cmp::Ordering;

/// A group that has rows.
#[derive(Drop)]
pub struct Named {
    /// What its key stands for.
    pub values: Values,
    pub place: usize,
}

/// The texts of a query's cube.
pub fn texts_for<'a>(query: &BoundQuery, names: &'a NameLists) -> &'a [Texts]
    ensures { result.now ≡ texts_for query.now names.now }
{
    match names.as_slice().get(query.cube as usize) {
        Some(lists) => lists.as_slice(),
        None => &[],
    }
}

/// The table of groups.
pub fn table_for(
    alloc: Global,
    query: &BoundQuery,
    groups: &Groups,
    lists: &[Texts],
) -> Result<Table, AllocError>
    requires { HasRoom query.now 0 groups.now }
    ensures { IfOk result (IsTable query.now lists.now groups.now) }
{
    let mut named = with_rows(alloc, query, groups, lists)?;
    if query.group.is_empty() && named.is_empty() {
        let mut lines = Vec::new(alloc);
        lines.push(empty_line(alloc, query.items.as_slice())?)?;
        return Ok(Table::from_vec(lines));
    }
    named.sort_by(|a, b| compare(a.values.as_slice(), b.values.as_slice()))?;
    let lines = run_lines(alloc, query, groups, lists, named.as_slice())?;
    Ok(Table::from_vec(lines))
}

/// Which of two keys comes first.
fn compare(a: &[Value], b: &[Value]) -> Ordering
    ensures { result ≡ values_cmp a.now b.now }
{
    let mut a_left = a;
    let mut b_left = b;
    'values: while let [x, a_rest @ ..] = a_left {
        let [y, b_rest @ ..] = b_left else {
            return Ordering::Greater;
        };
        match x.compare(y) {
            Ordering::Equal => {
                a_left = a_rest;
                b_left = b_rest;
            }
            order => return order,
        }
    }
    if b_left.is_empty() {
        Ordering::Equal
    } else {
        Ordering::Less
    }
}

/// The groups that have rows, with what their keys stand for.
fn with_rows(
    alloc: Global,
    query: &BoundQuery,
    groups: &Groups,
    lists: &[Texts],
) -> Result<Vec<Named>, AllocError>
    requires { HasRoom query.now 0 groups.now }
    ensures { IfOk result (λ named. named.items ≡ groups_named lists.now query.now groups.now) }
{
    let mut named = Vec::new(alloc);
    'groups: for place in 0..groups.keys.len() {
        if groups.counts[place] > 0 {
            let values = decoded_key(alloc, lists, query.group.as_slice(), groups.keys.at(place))?;
            named.push(Named {
                values: Values::from_vec(values),
                place,
            })?;
        }
    }
    Ok(named)
}

/// One line for each run of groups whose keys stand for the same values.
fn run_lines(
    alloc: Global,
    query: &BoundQuery,
    groups: &Groups,
    lists: &[Texts],
    named: &[Named],
) -> Result<Vec<Line>, AllocError>
    requires { HasNamed lists.now query.now groups.now named.now }
    ensures { IfOk result
        (λ lines. AreTableLines lists.now query.now groups.now named.now lines.items) }
{
    let mut lines = Vec::new(alloc);
    let mut rest = named;
    'runs: while let [first, ..] = rest {
        let (run, after) = rest.split_at(run_len(first.values.as_slice(), rest));
        lines.push(run_line(alloc, query, groups, first.values.as_slice(), run)?)?;
        rest = after;
    }
    Ok(lines)
}

/// How many groups in front have keys that stand for these values.
fn run_len(values: &[Value], named: &[Named]) -> usize
    ensures { IsRun values.now named.now result }
{
    let mut n = 0;
    'named: for group in named {
        if group.values.as_slice() != values {
            return n;
        }
        n += 1;
    }
    n
}

/// The line of the groups of a run.
fn run_line(
    alloc: Global,
    query: &BoundQuery,
    groups: &Groups,
    values: &[Value],
    run: &[Named],
) -> Result<Line, AllocError>
    requires some { 0 < length run.now }
    requires held { (rows : List CodedRow) × HasRun query.now rows groups.now run.now }
    ensures { IfOk result (IsRunLine query.now groups.now values.now run.now) }
{
    let items = query.items.as_slice();
    let mut tallies: Vec<Tally> = Vec::with_capacity(alloc, items.len())?;
    push_empty(&mut tallies, items);
    let mut count = 0;
    'groups: for group in run {
        count += groups.counts[group.place];
        add_all(
            tallies.as_mut_slice(),
            chunk(groups.tallies.as_slice(), group.place, items.len()),
        );
    }
    let line = line_for(alloc, query, values, count, tallies.as_slice())?;
    Ok(line)
}
