//! Names as places of their cube.

ghost use Rattle.std.specs.Prelude.{◌≡◌, filter_map, IfOk};
ghost use Rattle.cube_language.specs.Misfits.{cond_test};
ghost use Rattle.cube_language.specs.ResolvedNames.{dim_place, metric_place, resolved_cond, resolved_item};

use crate::places::{dim_place, metric_place};
use condition_spans::append;
use cube_language::{Cond, Item};
use cube_schema::Schema;
use cube_values::{BoundItem, BoundItems, Condition, Conditions, Coords, Text, ValueTest, Values};
use statement_check::cond_name;
use std::alloc::{AllocError, Global};

fn copy_values(values: &Values) -> Result<Values, AllocError>
    ensures { IfOk result (λ v. v ≡ values.now) }
{
    values.clone()
}

fn cond_test(cond: &Cond) -> Result<ValueTest, AllocError>
    ensures { IfOk result (λ test. test ≡ cond_test cond.now) }
{
    match cond {
        Cond::Equal(_, wanted) => Ok(ValueTest::Equal(wanted.copy()?)),
        Cond::In(_, wanted) => Ok(ValueTest::OneOf(copy_values(wanted)?)),
        Cond::Between(_, first, last) => Ok(ValueTest::Between(first.copy()?, last.copy()?)),
    }
}

/// A condition at the place of its dimension.
fn resolved_cond(cube: &Schema, cond: &Cond) -> Result<Option<Condition>, AllocError>
    ensures { IfOk result (λ found. found ≡ resolved_cond cube.now cond.now) }
{
    let Some(place) = dim_place(cube, cond_name(cond)) else {
        return Ok(None);
    };
    Ok(Some(Condition {
        place,
        test: cond_test(cond)?,
    }))
}

/// Conditions at the places of their dimensions.
pub fn resolved_conditions(
    alloc: Global,
    cube: &Schema,
    conds: &[Cond],
) -> Result<Conditions, AllocError>
    ensures { IfOk result (λ found. found ≡ filter_map (resolved_cond cube.now) conds.now) }
{
    let mut found = Vec::new(alloc);
    let mut left = conds;
    'conds: while let [cond, rest @ ..] = left {
        append(&mut found, resolved_cond(cube, cond)?)?;
        left = rest;
    }
    Ok(Conditions::from_vec(found))
}

/// An item by the place of its column.
fn resolved_item(cube: &Schema, item: &Item) -> Option<BoundItem>
    ensures { result ≡ resolved_item cube.now item.now }
{
    match item {
        Item::Plain(name) => Some(BoundItem::Group(dim_place(cube, name)?)),
        Item::Sum(name) => Some(BoundItem::Sum(metric_place(cube, name)?)),
        Item::Min(name) => Some(BoundItem::Min(metric_place(cube, name)?)),
        Item::Max(name) => Some(BoundItem::Max(metric_place(cube, name)?)),
        Item::Avg(name) => Some(BoundItem::Avg(metric_place(cube, name)?)),
        Item::CountAll => Some(BoundItem::Count),
    }
}

/// Items by the places of their columns.
pub fn resolved_items(
    alloc: Global,
    cube: &Schema,
    items: &[Item],
) -> Result<BoundItems, AllocError>
    ensures { IfOk result (λ found. found ≡ filter_map (resolved_item cube.now) items.now) }
{
    let mut found = Vec::new(alloc);
    let mut left = items;
    'items: while let [item, rest @ ..] = left {
        append(&mut found, resolved_item(cube, item))?;
        left = rest;
    }
    Ok(BoundItems::from_vec(found))
}

/// The places of the dimensions of a group.
pub fn resolved_group(alloc: Global, cube: &Schema, names: &[Text]) -> Result<Coords, AllocError>
    ensures { IfOk result (λ found. found ≡ filter_map (dim_place cube.now) names.now) }
{
    let mut found = Vec::new(alloc);
    let mut left = names;
    'names: while let [name, rest @ ..] = left {
        append(&mut found, dim_place(cube, name))?;
        left = rest;
    }
    Ok(Coords::from_vec(found))
}
