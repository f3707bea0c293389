//! Batches of one row.
ghost use Rattle.std.specs.Prelude.{◌≡◌, ℕ, ◌∷◌, [], IsTrue, All, IfSome, slice_get, Some, true};
ghost use Rattle.brick_address.specs.Addresses.{AreCoords};
ghost use Rattle.brick_map.specs.Batches.{IsRowOfCube};
ghost use Rattle.core_steps.specs.OnCore.{HasNoTexts};

use cube_values::{CodedRows, CubeShape, Size};
use std::alloc::Global;

// Whether these are coordinates of a cube of these sizes.
fn are_coords(sizes: &[Size], coords: &[u32]) -> bool
    ensures { IsTrue result → AreCoords sizes.now coords.now }
{
    let [size, sizes_rest @ ..] = sizes else {
        return coords.is_empty();
    };
    let [coord, coords_rest @ ..] = coords else {
        return false;
    };
    *coord < size.cardinality && are_coords(sizes_rest, coords_rest)
}

// Whether no dimension has texts.
fn have_no_texts(texts: &[bool]) -> bool
    ensures { IsTrue result → (dim : ℕ) → slice_get texts.now dim ≡ Some true → ⊥ }
{
    let [text, rest @ ..] = texts else {
        return true;
    };
    !*text && have_no_texts(rest)
}

/// A batch of one row of a cube. None: it is no row of the cube, or memory ran out.
pub(crate) fn one_row(
    alloc: Global,
    shape: &CubeShape,
    coords: &[u32],
    metrics: &[i64],
) -> Option<CodedRows>
    ensures rows { IfSome result (λ b. All (IsRowOfCube shape.now) b.rows) }
    ensures row { IfSome result (λ b. b.rows
        ≡ record { coords = coords.now; metrics = metrics.now } ∷ []) }
{
    if !are_coords(shape.shape.sizes.as_slice(), coords) {
        return None;
    }
    if metrics.len() != shape.metrics as usize {
        return None;
    }
    let mut batch = CodedRows::new(alloc, coords.len(), metrics.len());
    batch.reserve(1).ok()?;
    batch.push(coords, metrics);
    Some(batch)
}

/// A batch of one row of a cube of numbers. None: it is no row of the cube, or memory ran out.
pub(crate) fn row_of_numbers(
    alloc: Global,
    shape: &CubeShape,
    coords: &[u32],
    metrics: &[i64],
) -> Option<CodedRows>
    ensures rows { IfSome result (λ b. All (IsRowOfCube shape.now) b.rows) }
    ensures row { IfSome result (λ b. b.rows
        ≡ record { coords = coords.now; metrics = metrics.now } ∷ []) }
    ensures texts { IfSome result (λ b. HasNoTexts shape.now) }
{
    if !have_no_texts(shape.texts.as_slice()) {
        return None;
    }
    one_row(alloc, shape, coords, metrics)
}
