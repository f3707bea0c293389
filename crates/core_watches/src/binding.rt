//! A WATCH that fits its cube, bound by the names of the cube, and the table of a watch.

ghost use Rattle.std.specs.Prelude.{◌≡◌, [], ◌∷◌, IfOk, OnOk};
ghost use Rattle.agg_fold.specs.Standing.{HasRoom, IsTable};
ghost use Rattle.condition_spans.specs.Codes.{lists_at};
ghost use Rattle.core_watches.specs.BoundQueries.{IsBoundByNames, IsWithTable};
ghost use Rattle.cube_language.specs.Misfits.{FitsCube, HasMisfit};
ghost use Rattle.cube_values.specs.Faults.{IfFault};
ghost use Rattle.query_plan.specs.Bindings.{AsksRows, IsBoundQuery};

use crate::kept::ShownWatch;
use cube_language::{Decl, Misfit, Statement};
use cube_schema::{Schema, check};
use cube_values::{BoundQuery, CallError, NameLists, Table, TextLists};
use query_plan::bind_select;
use statement_check::check_statement;
use std::alloc::{AllocError, Global};
use std::slice;
use watched_queries::SessionWatch;

/// A query on the cube at a place, and the names of this cube as those of the one cube that there is.
#[derive(Drop)]
pub(crate) struct BoundByNames {
    pub(crate) query: BoundQuery,
    pub(crate) names: NameLists,
}

/// The cube of a declaration of the desk's, where a statement fits it. Each of these can be stored, so that
/// any other fault is want of memory.
pub(crate) fn fitting_cube(
    alloc: Global,
    decl: &Decl,
    statement: &Statement,
) -> Result<Schema, CallError<Misfit>>
    ensures cube { IfOk result (λ cube. cube ≡ decl.now) }
    ensures fits { OnOk result (FitsCube decl.now statement.now) }
    ensures misfit { IfFault result (HasMisfit decl.now statement.now) }
{
    match check(alloc, decl) {
        Ok(cube) => fitting(cube, statement),
        Err(_) => Err(CallError::NoMemory),
    }
}

fn fitting(cube: Schema, statement: &Statement) -> Result<Schema, CallError<Misfit>>
    ensures cube { IfOk result (λ same. same ≡ cube) }
    ensures fits { OnOk result (FitsCube cube statement.now) }
    ensures misfit { IfFault result (HasMisfit cube statement.now) }
{
    check_statement(&cube, statement)?;
    Ok(cube)
}

// The names of the cube at a place.
fn lists_of(alloc: Global, names: NameLists, place: u32) -> TextLists
    ensures { result ≡ lists_at names place }
{
    let mut cubes = names.into_vec();
    let place = place as usize;
    if place < cubes.len() {
        cubes.remove(place)
    } else {
        TextLists::new(alloc)
    }
}

// The query on the one cube that there is. The statement fits it, so that the only error is out of memory.
fn query_on_cube(
    alloc: Global,
    statement: &Statement,
    cube: &Schema,
    names: &NameLists,
) -> Result<BoundQuery, AllocError>
    requires { AsksRows statement.now }
    ensures { IfOk result (IsBoundQuery (cube.now ∷ []) names.now statement.now) }
{
    match bind_select(alloc, statement, slice::from_ref(cube), names) {
        Ok(query) => Ok(query),
        Err(_) => Err(AllocError),
    }
}

// The same query on the cube at a place.
fn query_at(place: u32, query: BoundQuery) -> BoundQuery
    ensures { result ≡ record query { cube = place } }
{
    BoundQuery {
        cube: place,
        span: query.span,
        group: query.group,
        items: query.items,
    }
}

/// The query of a statement on the cube at a place, by names that were copied of it.
pub(crate) fn query_by(
    alloc: Global,
    statement: &Statement,
    place: u32,
    cube: &Schema,
    names: NameLists,
) -> Result<BoundByNames, AllocError>
    requires { AsksRows statement.now }
    ensures { IfOk result (IsBoundByNames place cube.now statement.now names) }
{
    let lists = lists_of(alloc, names, place);
    let mut only = NameLists::new(alloc);
    only.push(lists)?;
    let query = query_on_cube(alloc, statement, cube, &only)?;
    Ok(BoundByNames {
        query: query_at(place, query),
        names: only,
    })
}

fn table_of(watch: &SessionWatch, names: &NameLists) -> Result<Table, AllocError>
    requires { HasRoom watch.now.query 0 watch.now.kept.groups }
    ensures { IfOk result
        (IsTable watch.now.query (lists_at names.now 0) watch.now.kept.groups) }
{
    let asked = query_at(0, watch.query.copy()?);
    watch.kept.finish(&asked, names)
}

/// A watch with its table, by the names of the one cube that there is.
pub(crate) fn with_table(watch: SessionWatch, names: &NameLists) -> Result<ShownWatch, AllocError>
    requires { HasRoom watch.query 0 watch.kept.groups }
    ensures { IfOk result (IsWithTable watch (lists_at names.now 0)) }
{
    let table = table_of(&watch, names)?;
    Ok(ShownWatch { watch, table })
}
