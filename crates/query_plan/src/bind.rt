//! Statements bound to their cubes.

ghost use Rattle.std.specs.Prelude.{◌≡◌, ◌<◌, All, length, map, IfOk, OnOk, IsSome};
ghost use Rattle.cube_values.specs.Faults.{IfFault};
ghost use Rattle.cube_language.specs.Misfits.{FitsCube};
ghost use Rattle.cube_language.specs.ResolvedNames.{resolved_region};
ghost use Rattle.cube_language.specs.StatementParts.{conds_of};
ghost use Rattle.cube_run.specs.LoadedRows.{row_of_values};
ghost use Rattle.statement_check.specs.OwnParts.{inserted_rows};
ghost use Rattle.cube_run.specs.RunRecords.{cube_needed};
ghost use Rattle.condition_spans.specs.Codes.{codes_in, lists_at};
ghost use Rattle.query_plan.specs.Bindings.{AsksRows, DeletesRows, PutsRows, IsBoundAt, IsUnfitFault, IsBindFault, IsDropPlan, IsSomeDropPlan, IsDropSpan, IsRowPlan, IsQueryOn, IsBoundQuery};

use crate::fault::BindFault;
use crate::places::{cube_needed, cube_place, shape_of};
use crate::plan::{DropPlan, RowPlan};
use crate::resolve::{resolved_conditions, resolved_group, resolved_items};
use crate::rows::rows_of_values;
use condition_spans::{codes_in, lists_at, narrow, span_for};
use cube_language::Statement;
use cube_schema::Schema;
use cube_values::{BoundQuery, CallError, Condition, Conditions, NameLists, Span};
use statement_check::{check_statement, conds_of, group_of, inserted_rows, items_of};
use std::alloc::{AllocError, Global};

/// Whether a statement fits its cube.
fn check_fit(cube: &Schema, statement: &Statement) -> Result<(), CallError<BindFault>>
    ensures fits { OnOk result (FitsCube cube.now statement.now) }
    ensures fault { IfFault result (IsUnfitFault cube.now statement.now) }
{
    match check_statement(cube, statement) {
        Ok(()) => Ok(()),
        Err(CallError::Fault(misfit)) => Err(CallError::Fault(BindFault::Unfit { misfit })),
        Err(CallError::NoMemory) => Err(CallError::NoMemory),
    }
}

/// The place of the cube that a statement needs and fits. It is refused as `bind_delete` says.
#[tactic(auto, using(crate::proofs::Cubes::lacks_cube, crate::proofs::Cubes::unfit_at, crate::proofs::Cubes::bound_at))]
pub fn bound_place(cubes: &[Schema], statement: &Statement) -> Result<u32, CallError<BindFault>>
    requires { IsSome (cube_needed statement.now) }
    ensures bound { IfOk result (IsBoundAt cubes.now statement.now) }
    ensures within { IfOk result (λ place. place < length cubes.now) }
    ensures fault { IfFault result (IsBindFault cubes.now statement.now) }
{
    let Some(name) = cube_needed(statement) else {
        unreachable!()
    };
    let Some(place) = cube_place(cubes, name) else {
        let name = name.copy()?;
        return Err(CallError::Fault(BindFault::UnknownCube { name }));
    };
    check_fit(&cubes[place], statement)?;
    Ok(narrow(place)?)
}

/// The conditions of a statement by the places of its cube.
#[tactic(auto, using(crate::proofs::Within::conds_within))]
fn conditions_on(
    alloc: Global,
    cube: &Schema,
    statement: &Statement,
) -> Result<Conditions, AllocError>
    ensures are { IfOk result (λ conditions.
        conditions ≡ (resolved_region cube.now (conds_of statement.now)).conditions) }
    ensures within { IfOk result (All (λ c. c.place < length cube.now.dims)) }
{
    resolved_conditions(alloc, cube, conds_of(statement))
}

/// The deletion on the cube at a place.
fn drop_plan(
    alloc: Global,
    place: u32,
    cube: &Schema,
    statement: &Statement,
) -> Result<DropPlan, AllocError>
    ensures place { IfOk result (λ plan. plan.cube ≡ place) }
    ensures conditions { IfOk result (λ plan.
        plan.conditions ≡ (resolved_region cube.now (conds_of statement.now)).conditions) }
{
    let conditions = conditions_on(alloc, cube, statement)?;
    Ok(DropPlan {
        cube: place,
        conditions,
    })
}

/// A DELETE bound to its cube: the place of the cube, and the conditions by the places of their dimensions.
///
/// Of the refusals of a statement those come that speak of it and the cubes alone, the first in their order:
/// no cube has its name, or the first test of `check_statement` that it fails on the cube.
#[tactic(auto, using(crate::proofs::Plans::drop_plan_from, crate::proofs::Needs::deletes_need))]
pub fn bind_delete(
    alloc: Global,
    statement: &Statement,
    cubes: &[Schema],
) -> Result<DropPlan, CallError<BindFault>>
    requires { DeletesRows statement.now }
    ensures plan { IfOk result (IsDropPlan cubes.now statement.now) }
    ensures fault { IfFault result (IsBindFault cubes.now statement.now) }
{
    let place = bound_place(cubes, statement)?;
    Ok(drop_plan(alloc, place, &cubes[place as usize], statement)?)
}

/// The span that a deletion is about: it has exactly those coordinates of the cube for which each condition of
/// the plan holds, each text read as its code. It has a part for each dimension, and cuts no brick.
///
/// `codes` has the code of each text of the conditions, in order: the text's number in the dictionary of its
/// dimension, or None for one that no row can have. It takes time by the number of dimensions and by how many
/// values the conditions have, never by the number of ranges.
#[tactic(auto, using(crate::proofs::Plans::plan_within))]
pub fn span_of(
    alloc: Global,
    plan: &DropPlan,
    cubes: &[Schema],
    codes: &[Option<u32>],
) -> Result<Span, AllocError>
    requires { IsSomeDropPlan cubes.now plan.now }
    ensures { IfOk result (IsDropSpan cubes.now plan.now codes.now) }
{
    let cube = &cubes[plan.cube as usize];
    span_for(alloc, shape_of(cube), plan.conditions.as_slice(), codes)
}

/// The rows of an INSERT for the cube at a place.
fn row_plan(
    alloc: Global,
    place: u32,
    cube: &Schema,
    statement: &Statement,
) -> Result<RowPlan, AllocError>
    ensures place { IfOk result (λ plan. plan.cube ≡ place) }
    ensures rows { IfOk result (λ plan.
        plan.rows ≡ map (row_of_values cube.now) (inserted_rows statement.now)) }
{
    let rows = rows_of_values(alloc, cube.decl(), inserted_rows(statement))?;
    Ok(RowPlan { cube: place, rows })
}

/// An INSERT or a LOAD bound to its cube: the place of the cube, and the rows of the INSERT. It is refused as
/// `bind_delete` says.
#[tactic(auto, using(crate::proofs::Plans::row_plan_from, crate::proofs::Needs::puts_need))]
pub fn bind_rows(
    alloc: Global,
    statement: &Statement,
    cubes: &[Schema],
) -> Result<RowPlan, CallError<BindFault>>
    requires { PutsRows statement.now }
    ensures plan { IfOk result (IsRowPlan cubes.now statement.now) }
    ensures fault { IfFault result (IsBindFault cubes.now statement.now) }
{
    let place = bound_place(cubes, statement)?;
    Ok(row_plan(alloc, place, &cubes[place as usize], statement)?)
}

/// The codes of the texts of conditions on the cube at a place.
fn codes_on(
    alloc: Global,
    names: &NameLists,
    place: u32,
    conditions: &[Condition],
) -> Result<Vec<Option<u32>>, AllocError>
    ensures { IfOk result (λ codes. codes.items
        ≡ codes_in (lists_at names.now place) conditions.now) }
{
    codes_in(alloc, lists_at(names, place), conditions)
}

/// The query of a statement on the cube at a place.
fn query_on(
    alloc: Global,
    place: u32,
    cube: &Schema,
    statement: &Statement,
    names: &NameLists,
) -> Result<BoundQuery, AllocError>
    requires { FitsCube cube.now statement.now }
    ensures place { IfOk result (λ q. q.cube ≡ place) }
    ensures query { IfOk result (IsQueryOn cube.now names.now statement.now) }
{
    let conditions = conditions_on(alloc, cube, statement)?;
    let codes = codes_on(alloc, names, place, conditions.as_slice())?;
    let span = span_for(
        alloc,
        shape_of(cube),
        conditions.as_slice(),
        codes.as_slice(),
    )?;
    let group = resolved_group(alloc, cube, group_of(statement))?;
    let items = resolved_items(alloc, cube, items_of(statement))?;
    Ok(BoundQuery {
        cube: place,
        span,
        group,
        items,
    })
}

/// A SELECT or a WATCH bound to its cube: the place of the cube, the span of its conditions with each text read
/// by `names`, and the places of its group and of its items. A text that is not among the names of its dimension
/// matches nothing. It is refused as `bind_delete` says.
///
/// `names` has the texts by cube and dimension. A condition on texts takes time by the number of its texts and of
/// the names of its dimension.
#[tactic(auto, using(crate::proofs::Plans::bound_query_from, crate::proofs::Plans::fits_there, crate::proofs::Needs::asks_need))]
pub fn bind_select(
    alloc: Global,
    statement: &Statement,
    cubes: &[Schema],
    names: &NameLists,
) -> Result<BoundQuery, CallError<BindFault>>
    requires { AsksRows statement.now }
    ensures query { IfOk result (IsBoundQuery cubes.now names.now statement.now) }
    ensures fault { IfFault result (IsBindFault cubes.now statement.now) }
{
    let place = bound_place(cubes, statement)?;
    Ok(query_on(alloc, place, &cubes[place as usize], statement, names)?)
}
