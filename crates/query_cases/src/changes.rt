//! A watch of no rows, to which a row comes and from which it goes again.

ghost use Rattle.std.specs.Prelude.{◌≡◌, ◌<◌, List, All, IfOk};
ghost use Rattle.cube_values.specs.declared.row.CodedRow.{CodedRow};
ghost use Rattle.query_cases.specs.Trials.{IsTrial, one_row, sum_and_count};

use crate::fields::is_table;
use agg_fold::Partial;
use cube_values::{BoundItem, BoundItems, BoundQuery, Coords, NameLists, Part, Parts, Span, Table};
use standing_query::{Change, Watch};
use std::alloc::{AllocError, Global};
use std::mem::swap;

fn sum_and_count(alloc: Global, group: &[u32]) -> Result<BoundQuery, AllocError>
    ensures { IfOk result (λ query. query ≡ sum_and_count group.now) }
{
    Ok(BoundQuery {
        cube: 0,
        span: Span {
            parts: Parts::from_vec(vec![in alloc; Part::All]?),
        },
        group: Coords::from_vec(Vec::from_slice(alloc, group)?),
        items: BoundItems::from_vec(vec![in alloc; BoundItem::Sum(0), BoundItem::Count]?),
    })
}

// A watch of no rows, and a change by which a row comes.
#[derive(Drop)]
struct Trial {
    watch: Watch,
    change: Change,
}

fn begun(alloc: Global, group: &[u32], coord: u32, metric: i64) -> Result<Trial, AllocError>
    requires { All (λ dim. dim < 1) group.now }
    ensures { IfOk result (λ t. IsTrial (one_row coord metric) t.watch t.change) }
{
    let query = sum_and_count(alloc, group)?;
    let none = Partial::new(alloc);
    let mut came = Partial::new(alloc);
    came.add_row(&query, &[coord], &[metric])?;
    Ok(Trial {
        watch: Watch::new(query, &none)?,
        change: Change { came, went: none },
    })
}

// The answers before the row comes, while it is there, and once it has gone.
#[derive(Drop)]
struct Answers {
    before: Table,
    meanwhile: Table,
    afterwards: Table,
}

fn followed(
    names: &NameLists,
    watch: &mut Watch,
    change: &mut Change,
) -> Result<Answers, AllocError>
    requires { (rows : List CodedRow) × IsTrial rows watch.old change.old }
{
    let before = watch.table(names)?;
    watch.apply(change)?;
    let meanwhile = watch.copy()?.table(names)?;
    swap(&mut change.came, &mut change.went);
    watch.apply(change)?;
    Ok(Answers {
        before,
        meanwhile,
        afterwards: watch.table(names)?,
    })
}

// The answers over no rows, over this one, and over none again.
fn shown(alloc: Global, group: &[u32], coord: u32, metric: i64) -> Result<Answers, AllocError>
    requires { All (λ dim. dim < 1) group.now }
{
    let Trial {
        mut watch,
        mut change,
    } = begun(alloc, group, coord, metric)?;
    followed(&NameLists::new(alloc), &mut watch, &mut change)
}

#[test]
fn without_a_group_the_one_line_stays(rt: HostRuntime) {
    let shown = shown(rt.alloc(), &[], 0, 5).expect(&rt, "memory");
    assert!(rt; is_table(&shown.before, "NULL 0"));
    assert!(rt; is_table(&shown.meanwhile, "5 1"));
    assert!(rt; is_table(&shown.afterwards, "NULL 0"));
}

#[test]
fn a_group_whose_last_row_went_is_left_out(rt: HostRuntime) {
    let shown = shown(rt.alloc(), &[0], 3, -2).expect(&rt, "memory");
    assert!(rt; is_table(&shown.before, ""));
    assert!(rt; is_table(&shown.meanwhile, "-2 1"));
    assert!(rt; is_table(&shown.afterwards, ""));
}
