//! Which bricks a deletion marks.

ghost use Rattle.std.specs.Prelude.{◌≡◌, ◌<◌, All, OnOk, OnErr};
ghost use Rattle.cube_values.specs.Shapes.{IsSoundShape, bricks_of};
ghost use Rattle.cube_values.specs.Spans.{IsSoundPart};
ghost use Rattle.condition_spans.specs.Spans.{CutNoBrick};
ghost use Rattle.brick_map.specs.Births.{has_brick};
ghost use Rattle.brick_map.specs.Lists.{MayMark, brick_after_deletion, brick_before_deletion};

use brick_address::{Cover, covers};
use brick_store::Brick;
use cube_values::{Shape, Span};
use std::alloc::AllocError;

/// Whether a box, which cuts no brick, has a brick.
pub fn has_brick(shape: &Shape, span: &Span, number: u64) -> bool
    requires shape { IsSoundShape shape.now }
    requires parts { All IsSoundPart span.now.parts }
    requires whole { CutNoBrick shape.now.sizes span.now.parts }
    requires brick { number < bricks_of shape.now.sizes }
    ensures { result ≡ has_brick shape.now.sizes span.now number }
{
    match covers(shape, span, number) {
        Cover::Inside => true,
        Cover::Outside => false,
        // A box that cuts no brick does not cut this one.
        Cover::Cut { .. } => false,
    }
}

/// An epoch deletes the rows of a brick, where its box has the brick. There is room for a mark.
pub fn delete_from(brick: &mut Brick, shape: &Shape, span: &Span, epoch: u64)
    requires shape { IsSoundShape shape.now }
    requires parts { All IsSoundPart span.now.parts }
    requires whole { CutNoBrick shape.now.sizes span.now.parts }
    requires brick { brick.old.home.number < bricks_of shape.now.sizes }
    requires room { MayMark shape.now.sizes span.now brick.old }
    ensures { brick.new ≡ brick_after_deletion shape.now.sizes span.now epoch brick.old }
{
    if has_brick(shape, span, brick.number()) {
        brick.mark(epoch);
    }
}

/// Makes room for a mark in a brick, where the box has the brick. Where memory is wanted nothing changes.
pub fn prepare_deletion(brick: &mut Brick, shape: &Shape, span: &Span) -> Result<(), AllocError>
    requires shape { IsSoundShape shape.now }
    requires parts { All IsSoundPart span.now.parts }
    requires whole { CutNoBrick shape.now.sizes span.now.parts }
    requires brick { brick.old.home.number < bricks_of shape.now.sizes }
    ensures ok { OnOk result
        (brick.new ≡ brick_before_deletion shape.now.sizes span.now brick.old) }
    ensures err { OnErr result (brick.new ≡ brick.old) }
{
    if has_brick(shape, span, brick.number()) {
        brick.prepare(0, 1)?;
    }
    Ok(())
}
