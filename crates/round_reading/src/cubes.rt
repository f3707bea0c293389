//! What a round has of its cubes.

ghost use Rattle.std.specs.Prelude.{◌≡◌, ◌↔◌, ◌++◌, length, map, IsTrue, IfOk};
ghost use Rattle.std.specs.List.{zip, AllZip};
ghost use Rattle.cube_rounds.specs.Demands.{names_with, coord_limit, coord_limits, no_names, HaveDims};
ghost use Rattle.round_fields.specs.Reading.{GivesRead, each_step};
ghost use Rattle.round_reading.specs.Payload.{cube_step};
ghost use Rattle.round_reading.specs.Limits.{HasNameRoom};

use crate::entries::{RoundEpochs, bricks_from};
use crate::names::take_dims;
use cube_rounds::{RoundBrickList, RoundCube};
use cube_schema::{Decl, DimDecl, Schema};
use cube_values::{CallError, NameLists, TextLists, Texts};
use std::alloc::{AllocError, Global};

/// The limit of a dimension's coordinates, by the earlier names and the new ones.
fn coord_limit(dim: &DimDecl, earlier: &Texts, names: &Texts) -> u32
    requires { HasNameRoom (dim.now, earlier.now) names.now }
    ensures { result ≡ coord_limit (dim.now, earlier.now ++ names.now) }
{
    let cardinality = dim.cardinality;
    if dim.text {
        (earlier.len() + names.len()) as u32
    } else {
        cardinality
    }
}

/// The limits of each dimension's coordinates, by the earlier names and the new ones.
fn limits_of(
    alloc: Global,
    cube: &Decl,
    earlier: &[Texts],
    names: &[Texts],
) -> Result<Vec<u32>, AllocError>
    requires earlier { length earlier.now ≡ length cube.now.dims }
    requires room { AllZip HasNameRoom (zip cube.now.dims earlier.now) names.now }
    ensures { IfOk result (λ limits.
        limits.items ≡ coord_limits cube.now (names_with earlier.now names.now)) }
{
    let mut limits = Vec::new(alloc);
    'dims: for (i, dim) in cube.dims.as_slice().iter().enumerate() {
        limits.push(coord_limit(dim, &earlier[i], &names[i]))?;
    }
    Ok(limits)
}

/// What a round has of a cube with these names, put behind what it has of the cubes before it.
#[tactic(auto, unfolding(crate::specs::Payload::cube_from))]
fn take_cube<'a>(
    bytes: &'a [u8],
    alloc: Global,
    schema: &Schema,
    earlier: &'a [Texts],
    epochs: RoundEpochs,
    cubes: &mut Vec<RoundCube>,
) -> Result<&'a [u8], CallError<usize>>
    requires { length earlier.now ≡ length schema.now.dims }
    ensures { GivesRead (λ rest. (cubes.new.items, rest.now)) result
        (cube_step epochs.from epochs.epoch (schema.now, earlier.now) cubes.old.items bytes.now) }
{
    let decl = schema.decl();
    let (names, rest) = take_dims(bytes, alloc, decl.dims.as_slice(), earlier)?;
    let limits = limits_of(alloc, decl, earlier, names.as_slice())?;
    let (bricks, rest) = bricks_from(rest, alloc, schema, limits.as_slice(), epochs)?;
    cubes.push(RoundCube {
        names: TextLists::from_vec(names),
        bricks: RoundBrickList::from_vec(bricks),
    })?;
    Ok(rest)
}

/// What a round has of the cubes before it.
pub(crate) fn take_cubes<'a>(
    bytes: &'a [u8],
    alloc: Global,
    schemas: &[Schema],
    names: &'a [TextLists],
    epochs: RoundEpochs,
    cubes: &mut Vec<RoundCube>,
) -> Result<&'a [u8], CallError<usize>>
    requires { HaveDims schemas.now names.now }
    ensures { GivesRead (λ rest. (cubes.new.items, rest.now)) result
        (each_step (cube_step epochs.from epochs.epoch) (zip schemas.now names.now)
        cubes.old.items bytes.now) }
{
    let mut rest = bytes;
    'cubes: for (i, schema) in schemas.iter().enumerate() {
        rest = take_cube(rest, alloc, schema, names[i].as_slice(), epochs, cubes)?;
    }
    Ok(rest)
}

/// Lists without names, one for each dimension.
pub(crate) fn no_names(alloc: Global, cube: &Decl) -> Result<TextLists, AllocError>
    ensures { IfOk result (λ lists. lists ≡ no_names cube.now) }
{
    let mut lists = TextLists::new(alloc);
    'dims: for _ in 0..cube.dims.len() {
        lists.push(Texts::new(alloc))?;
    }
    Ok(lists)
}

/// Lists without names for each dimension of each cube, as they are behind a header.
pub fn no_names_of(alloc: Global, cubes: &[Schema]) -> Result<NameLists, AllocError>
    ensures names { IfOk result (λ names. names ≡ map no_names cubes.now) }
    ensures dims { IfOk result (λ names. HaveDims cubes.now names) }
{
    let mut names = NameLists::new(alloc);
    'cubes: for cube in cubes {
        names.push(no_names(alloc, cube.decl())?)?;
    }
    Ok(names)
}

/// Whether there is a list of names for each dimension of each cube.
pub fn have_dims(cubes: &[Schema], names: &NameLists) -> bool
    ensures { IsTrue result ↔ HaveDims cubes.now names.now }
{
    let mut cubes_left = cubes;
    let mut lists_left = names.as_slice();
    'cubes: while let [cube, cubes_rest @ ..] = cubes_left {
        let [lists, lists_rest @ ..] = lists_left else {
            return false;
        };
        if lists.len() != cube.decl().dims.len() {
            return false;
        }
        cubes_left = cubes_rest;
        lists_left = lists_rest;
    }
    lists_left.is_empty()
}
