//! A SELECT that fits its cube, bound by the names of the cube.

ghost use Rattle.std.specs.Prelude.{◌≡◌, [], ◌∷◌, IfOk, OnOk};
ghost use Rattle.core_selects.specs.ReadLines.{IsBoundBy};
ghost use Rattle.condition_spans.specs.Codes.{lists_at};
ghost use Rattle.cube_language.specs.Misfits.{FitsCube, HasMisfit};
ghost use Rattle.cube_values.specs.Faults.{IfFault};
ghost use Rattle.query_plan.specs.Bindings.{AsksRows, IsBoundQuery};
ghost use Rattle.query_plan.specs.Ties.{AreDistinct};

use cube_language::{Decl, Misfit, Statement};
use cube_schema::{Schema, check};
use cube_values::{BoundQuery, CallError, NameLists, TextLists};
use query_plan::bind_select;
use statement_check::check_statement;
use std::alloc::{AllocError, Global};
use std::slice;

/// The cube of a declaration of the desk's, where a statement fits it. Each of these can be stored, so that
/// any other fault is want of memory.
pub(crate) fn fitting_cube(
    alloc: Global,
    decl: &Decl,
    statement: &Statement,
) -> Result<Schema, CallError<Misfit>>
    ensures cube { IfOk result (λ cube. cube ≡ decl.now) }
    ensures fits { OnOk result (FitsCube decl.now statement.now) }
    ensures misfit { IfFault result (HasMisfit decl.now statement.now) }
{
    match check(alloc, decl) {
        Ok(cube) => fitting(cube, statement),
        Err(_) => Err(CallError::NoMemory),
    }
}

fn fitting(cube: Schema, statement: &Statement) -> Result<Schema, CallError<Misfit>>
    ensures cube { IfOk result (λ same. same ≡ cube) }
    ensures fits { OnOk result (FitsCube cube statement.now) }
    ensures misfit { IfFault result (HasMisfit cube statement.now) }
{
    check_statement(&cube, statement)?;
    Ok(cube)
}

// The names of the cube at a place.
fn lists_of(alloc: Global, names: NameLists, place: u32) -> TextLists
    ensures { result ≡ lists_at names place }
{
    let mut cubes = names.into_vec();
    let place = place as usize;
    if place < cubes.len() {
        cubes.remove(place)
    } else {
        TextLists::new(alloc)
    }
}

// The query on the one cube that there is. The statement fits it, so that the only error is out of memory.
fn query_on_cube(
    alloc: Global,
    statement: &Statement,
    cube: &Schema,
    names: &NameLists,
) -> Result<BoundQuery, AllocError>
    requires { AsksRows statement.now }
    ensures { IfOk result (IsBoundQuery (cube.now ∷ []) names.now statement.now) }
{
    match bind_select(alloc, statement, slice::from_ref(cube), names) {
        Ok(query) => Ok(query),
        Err(_) => Err(AllocError),
    }
}

/// The same query on the cube at a place.
pub(crate) fn query_at(place: u32, query: BoundQuery) -> BoundQuery
    ensures { result ≡ record query { cube = place } }
{
    BoundQuery {
        cube: place,
        span: query.span,
        group: query.group,
        items: query.items,
    }
}

/// The query of a statement on the cube at a place, by names that were copied of it, and these names as those of the one
/// cube that there is.
pub(crate) fn query_by(
    alloc: Global,
    statement: &Statement,
    place: u32,
    cube: &Schema,
    names: NameLists,
) -> Result<(BoundQuery, NameLists), AllocError>
    requires form { AsksRows statement.now }
    requires distinct { AreDistinct (lists_at names place) }
    ensures { IfOk result (λ bound. IsBoundBy place cube.now statement.now names bound.0
        × (lists_at bound.1 0 ≡ lists_at names place)) }
{
    let lists = lists_of(alloc, names, place);
    let mut only = NameLists::new(alloc);
    only.push(lists)?;
    let query = query_on_cube(alloc, statement, cube, &only)?;
    Ok((query_at(place, query), only))
}
