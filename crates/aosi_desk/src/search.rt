//! Looking for a cube by its name, and copies of declarations.
ghost use Rattle.std.specs.Prelude.{◌≡◌, ◌≤◌, IfOk, All, length};
ghost use Rattle.cube_language.specs.Cubes.{IsStorable};
ghost use Rattle.aosi_desk.specs.Desks.{IsCubePlace, IsFound};

use crate::cube::CubeFound;
use cube_language::{Decl, MOST_CUBES};
use cube_schema::Schema;
use std::alloc::{AllocError, Global};

/// The place of the cube of a name.
pub(crate) fn place_of(cubes: &[Decl], name: &[u8]) -> Option<usize>
    ensures { IsCubePlace cubes.now name.now result }
{
    for (place, cube) in cubes.iter().enumerate() {
        if cube.name.as_bytes() == name {
            return Some(place);
        }
    }
    None
}

/// The cube of a name, if one has it. The only error is want of memory.
pub(crate) fn find(cubes: &[Decl], name: &[u8]) -> Result<CubeFound, AllocError>
    requires { length cubes.now ≤ MOST_CUBES }
    ensures { IfOk result (λ found. IsFound cubes.now name.now found) }
{
    let Some(place) = place_of(cubes, name) else {
        return Ok(CubeFound::Unknown);
    };
    let decl = copy_decl(&cubes[place])?;
    Ok(CubeFound::Found {
        place: place as u32,
        decl,
    })
}

/// The same declaration.
pub(crate) fn copy_decl(decl: &Decl) -> Result<Decl, AllocError>
    ensures { IfOk result (λ d. d ≡ decl.now) }
{
    decl.clone()
}

/// The same declarations.
pub(crate) fn copy_decls(alloc: Global, decls: &[Decl]) -> Result<Vec<Decl>, AllocError>
    ensures { IfOk result (λ copied. copied.items ≡ decls.now) }
{
    let mut copied = Vec::with_capacity(alloc, decls.len())?;
    'decls: for decl in decls {
        copied.push(copy_decl(decl)?)?;
    }
    Ok(copied)
}

/// The declarations of cubes, with room for as many as there can be.
pub(crate) fn decls_of(alloc: Global, cubes: &[Schema]) -> Result<Vec<Decl>, AllocError>
    ensures same { IfOk result (λ decls. decls.items ≡ cubes.now) }
    ensures storable { IfOk result (λ decls. All IsStorable decls.items) }
{
    let mut decls = Vec::with_capacity(alloc, MOST_CUBES)?;
    'cubes: for cube in cubes {
        decls.push(copy_decl(cube.decl())?)?;
    }
    Ok(decls)
}
