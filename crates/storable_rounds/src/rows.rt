//! The rows of a round have coordinates of four bytes and numbers of eight.
ghost use Rattle.std.specs.Prelude.{◌<◌, ◌^◌, length, FitsSigned};
ghost use Rattle.std.specs.Int.{w64};
ghost use Rattle.std.specs.List.{AllByRecursion};
ghost use Rattle.cube_values.specs.Batches.{coded_row_at};
ghost use Rattle.following_rounds.specs.FollowingRounds.{HasStorableValues};
ghost use Rattle.storable_rounds.specs.StorableParts.{HasStorableBricks, HasStorableRows};

use cube_rounds::{RoundBrick, RoundCube};
use cube_values::CodedRows;

// Each coordinate has four bytes, as each read of one says.
fn coords_fit(coords: &[u32])
    ensures { AllByRecursion (λ coord. coord < 2 ^ 32) coords.now }
{
    let mut left = coords;
    'coords: while let [coord, rest @ ..] = left {
        let _coord = *coord;
        left = rest;
    }
}

// Each number has eight bytes.
fn numbers_fit(numbers: &[i64])
    ensures { AllByRecursion (FitsSigned w64) numbers.now }
{
    let mut left = numbers;
    'numbers: while let [number, rest @ ..] = left {
        let _number = *number;
        left = rest;
    }
}

fn row_fits(rows: &CodedRows, i: usize)
    requires { i < length rows.now.rows }
    ensures { HasStorableValues (coded_row_at rows.now.rows i) }
{
    coords_fit(rows.coords_of(i));
    numbers_fit(rows.metrics_of(i));
}

fn batch_fits(rows: &CodedRows)
    ensures { AllByRecursion HasStorableValues rows.now.rows }
{
    'rows: for i in 0..rows.len() {
        row_fits(rows, i);
    }
}

fn bricks_fit(bricks: &[RoundBrick])
    ensures { AllByRecursion HasStorableRows bricks.now }
{
    let mut left = bricks;
    'bricks: while let [brick, rest @ ..] = left {
        batch_fits(brick.rows());
        left = rest;
    }
}

/// So it is in each cube.
pub(crate) fn rows_fit(cubes: &[RoundCube])
    ensures { AllByRecursion HasStorableBricks cubes.now }
{
    let mut left = cubes;
    'cubes: while let [cube, rest @ ..] = left {
        bricks_fit(cube.bricks.as_slice());
        left = rest;
    }
}
