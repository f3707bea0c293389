//! Which dimensions have texts, and how many names a store has of each.
ghost use Rattle.std.specs.Prelude.{◌≡◌, ℕ, [], map, length, get_or, IfOk};
ghost use Rattle.round_copies.specs.RoundCopies.{texts_by_cube};

use cube_language::{Decl, DimDecl};
use cube_values::{CubeShape, Flags, Sequence};
use std::alloc::{AllocError, Global};

// As a number of 32 bits. More items than these can stand for are want of memory.
pub(crate) fn short_count(count: usize) -> Result<u32, AllocError>
    ensures { IfOk result (λ n. n ≡ count) }
{
    u32::try_from(count).ok().ok_or(AllocError)
}

// The numbers of a cube, and none where there are none yet.
pub(crate) fn counts_of_cube(counts: &[Sequence<u64>], cube: usize) -> &[u64]
    ensures { result.now ≡ get_or counts.now cube [] }
{
    if cube < counts.len() {
        counts[cube].as_slice()
    } else {
        &[]
    }
}

// A number, and 0 where there is none.
pub(crate) fn count_of_dim(counts: &[u64], dim: usize) -> u64
    ensures { result ≡ get_or counts.now dim 0 }
{
    if dim < counts.len() { counts[dim] } else { 0 }
}

fn flags_of(alloc: Global, dims: &[DimDecl]) -> Result<Flags, AllocError>
    ensures { IfOk result (λ flags. flags ≡ map (λ dim. dim.text) dims.now) }
{
    let mut flags = Flags::new(alloc);
    'dims: for dim in dims {
        flags.push(dim.text)?;
    }
    Ok(flags)
}

fn flags_copy(shape: &CubeShape) -> Result<Flags, AllocError>
    ensures { IfOk result (λ flags. flags ≡ shape.now.texts) }
{
    shape.texts.clone()
}

/// Which dimensions have texts, of the cubes of a store and then of those that were made.
pub(crate) fn texts_by_cube(
    alloc: Global,
    shapes: &[CubeShape],
    made: &[Decl],
) -> Result<Vec<Flags>, AllocError>
    ensures { IfOk result (λ texts. texts.items ≡ texts_by_cube shapes.now made.now) }
{
    let mut texts = Vec::new(alloc);
    'shapes: for shape in shapes {
        texts.push(flags_copy(shape)?)?;
    }
    'made: for cube in made {
        texts.push(flags_of(alloc, cube.dims.as_slice())?)?;
    }
    Ok(texts)
}
