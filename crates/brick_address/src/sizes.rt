//! The ranges of a dimension, and the number of bricks.

ghost use Rattle.std.specs.Prelude.{◌≡◌, ◌≤◌, ◌<◌, ◌^◌, All};
ghost use Rattle.brick_address.specs.Addresses.{length_of, coord_at};
ghost use Rattle.cube_values.specs.declared.shape.TheConstants.{MOST_BRICKS};
ghost use Rattle.cube_values.specs.Shapes.{ranges_of, bricks_of, IsSoundSize};

use cube_values::Size;

/// The number of ranges of a dimension.
pub fn ranges_of(size: &Size) -> u64
    requires { IsSoundSize size.now }
    ensures { result ≡ ranges_of size.now }
{
    let range = u64::from(size.range);
    (u64::from(size.cardinality) + (range - 1)) / range
}

/// The number of bricks of a cube.
pub fn bricks_of(sizes: &[Size]) -> u64
    requires sound { All IsSoundSize sizes.now }
    requires most { bricks_of sizes.now ≤ MOST_BRICKS }
    ensures { result ≡ bricks_of sizes.now }
{
    let mut bricks = 1;
    let mut left = sizes;
    'sizes: while let [size, rest @ ..] = left {
        bricks *= ranges_of(size);
        left = rest;
    }
    bricks
}

/// The coordinates of a range, from the start up to the end, the end left out.
#[derive(Drop)]
pub struct Bounds {
    pub start: u32,
    pub end: u32,
}

/// The coordinates of a range that has some.
pub fn bounds_of(size: &Size, range: u64) -> Bounds
    requires { 0 < length_of size.now range }
    ensures start { result.start ≡ coord_at size.now range 0 }
    ensures end { result.end ≡ coord_at size.now range (length_of size.now range) }
    ensures some { result.start < result.end }
    ensures within { result.end ≤ size.now.cardinality }
{
    let start = range * u64::from(size.range);
    let end = (start + u64::from(size.range)).min(u64::from(size.cardinality));
    Bounds {
        start: start as u32,
        end: end as u32,
    }
}
