//! How much of a brick a span has.

ghost use Rattle.std.specs.Prelude.{◌≡◌, ◌<◌, ◌≤◌, ◌^◌, length, All};
ghost use Rattle.cube_values.specs.declared.shape.TheConstants.{MOST_COLUMNS};
ghost use Rattle.cube_values.specs.Shapes.{bricks_of, IsSoundSize, IsSoundShape};
ghost use Rattle.cube_values.specs.Spans.{IsSoundPart};
ghost use Rattle.brick_address.specs.Covers.{Covers};
ghost use Rattle.brick_address.specs.CoverParts.{cover_with, IsBelow};

use crate::share::{Share, share_of};
use crate::sizes::{bounds_of, bricks_of, ranges_of};
use cube_values::{Part, Shape, Size, Span};

/// How much of a brick a span has.
#[derive(Clone, Copy, Debug, PartialEq, Eq)]
pub enum Cover {
    /// The span has all coordinates of the brick.
    Inside,
    /// The span has no coordinates of the brick.
    Outside,
    /// The span has some coordinates of the brick and not all.
    Cut {
        /// The first dimension whose part lacks a coordinate of the brick.
        dimension: u32,
    },
}

/// The cover of a brick, from the share of its first dimension and from the cover by the others.
fn cover_with(first: Share, others: Cover) -> Cover
    requires { IsBelow others MOST_COLUMNS }
    ensures { result ≡ cover_with first others }
{
    match (first, others) {
        (Share::Empty, _) | (_, Cover::Outside) => Cover::Outside,
        (Share::Whole, Cover::Inside) => Cover::Inside,
        (Share::Whole, Cover::Cut { dimension }) => Cover::Cut {
            dimension: dimension + 1,
        },
        (Share::Partial, _) => Cover::Cut { dimension: 0 },
    }
}

/// How much of a brick parts have, of a cube that has so many bricks.
fn cover_of(sizes: &[Size], parts: &[Part], bricks: u64, brick: u64) -> Cover
    requires sound { All IsSoundSize sizes.now }
    requires dims { length sizes.now ≤ MOST_COLUMNS }
    requires parts { All IsSoundPart parts.now }
    requires same { length parts.now ≡ length sizes.now }
    requires bricks { bricks ≡ bricks_of sizes.now }
    requires brick { brick < bricks }
    ensures covers { Covers sizes.now parts.now brick result }
    ensures below { IsBelow result (length sizes.now) }
{
    let [size, sizes_rest @ ..] = sizes else {
        return Cover::Inside;
    };
    let [part, parts_rest @ ..] = parts else {
        return Cover::Inside;
    };
    let bricks_left = bricks / ranges_of(size);
    let bounds = bounds_of(size, brick / bricks_left);
    let first = share_of(part, bounds.start, bounds.end);
    let others = cover_of(sizes_rest, parts_rest, bricks_left, brick % bricks_left);
    cover_with(first, others)
}

/// How much of a brick a span has, decided by which of the brick's coordinates the span has: all, none,
/// or else the first dimension that cuts. It takes time by the number of dimensions and the lengths of
/// the listed parts, which rise strictly.
pub fn covers(shape: &Shape, span: &Span, brick: u64) -> Cover
    requires shape { IsSoundShape shape.now }
    requires parts { All IsSoundPart span.now.parts }
    requires brick { brick < bricks_of shape.now.sizes }
    ensures { Covers shape.now.sizes span.now.parts brick result }
{
    let sizes = shape.sizes.as_slice();
    let parts = span.parts.as_slice();
    if sizes.len() != parts.len() {
        return Cover::Outside;
    }
    cover_of(sizes, parts, bricks_of(sizes), brick)
}
