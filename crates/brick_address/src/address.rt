//! The brick of coordinates, their offsets in it, and the way back.

ghost use Rattle.std.specs.Prelude.{◌≡◌, ℕ, ◌<◌, ◌≤◌, ◌^◌, List, length, All, get_or};
ghost use Rattle.cube_values.specs.Shapes.{bricks_of, IsSoundSize, IsSoundShape};
ghost use Rattle.brick_address.specs.Addresses.{size_at, AreCoords, brick_of, offset_of, range_in, length_of, coord_at, LieIn};

use crate::sizes::{bounds_of, bricks_of, ranges_of};
use cube_values::{Shape, Size};

/// The brick in which coordinates lie: the row-major number of their ranges, the first dimension most
/// significant. A cube without dimensions has brick 0 alone. It takes time by the number of dimensions.
pub fn brick_of(shape: &Shape, coords: &[u32]) -> u64
    requires shape { IsSoundShape shape.now }
    requires coords { AreCoords shape.now.sizes coords.now }
    ensures value { result ≡ brick_of shape.now.sizes coords.now }
    ensures within { result < bricks_of shape.now.sizes }
{
    let mut brick = 0;
    let mut sizes_left = shape.sizes.as_slice();
    let mut coords_left = coords;
    'dims: while let [size, sizes_rest @ ..] = sizes_left {
        let [coord, coords_rest @ ..] = coords_left else {
            return brick;
        };
        brick = brick * ranges_of(size) + u64::from(*coord / size.range);
        sizes_left = sizes_rest;
        coords_left = coords_rest;
    }
    brick
}

/// The offset of a dimension's coordinate: its place in its range.
pub fn offset_of(shape: &Shape, dim: u32, coord: u32) -> u32
    requires shape { IsSoundShape shape.now }
    requires dim { dim < length shape.now.sizes }
    requires coord { coord < (size_at shape.now.sizes dim).cardinality }
    ensures { result ≡ offset_of (size_at shape.now.sizes dim) coord }
{
    coord % shape.sizes.as_slice()[dim as usize].range
}

/// The range of a dimension in which a brick lies, where the cube has so many bricks.
pub(crate) fn range_in(sizes: &[Size], bricks: u64, brick: u64, dim: usize) -> u64
    requires sound { All IsSoundSize sizes.now }
    requires bricks { bricks ≡ bricks_of sizes.now }
    requires brick { brick < bricks }
    requires dim { dim < length sizes.now }
    ensures { result ≡ range_in sizes.now brick dim }
{
    let [size, rest @ ..] = sizes else {
        return 0;
    };
    let bricks_left = bricks / ranges_of(size);
    if dim == 0 {
        brick / bricks_left
    } else {
        range_in(rest, bricks_left, brick % bricks_left, dim - 1)
    }
}

/// The coordinate of a dimension at an offset in a brick. The brick's own range, which may be the last
/// and shorter one, has the offset. It takes time by the number of dimensions.
pub fn coord_of(shape: &Shape, brick: u64, dim: u32, offset: u32) -> u32
    requires shape { IsSoundShape shape.now }
    requires brick { brick < bricks_of shape.now.sizes }
    requires dim { dim < length shape.now.sizes }
    requires offset { offset
        < length_of (size_at shape.now.sizes dim) (range_in shape.now.sizes brick dim) }
    ensures value { result
        ≡ coord_at (size_at shape.now.sizes dim) (range_in shape.now.sizes brick dim) offset }
    ensures only { (coords : List ℕ)
        → LieIn shape.now.sizes brick coords
        → offset_of (size_at shape.now.sizes dim) (get_or coords dim 0) ≡ offset
        → get_or coords dim 0 ≡ result }
    ensures within { result < (size_at shape.now.sizes dim).cardinality }
{
    let sizes = shape.sizes.as_slice();
    let range = range_in(sizes, bricks_of(sizes), brick, dim as usize);
    bounds_of(&sizes[dim as usize], range).start + offset
}
