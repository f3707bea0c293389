//! Boxes of a cube of one dimension.
ghost use Rattle.std.specs.Prelude.{◌≡◌, ◌∷◌, [], IsTrue, All, IfSome, length};
ghost use Rattle.condition_spans.specs.Spans.{CutNoBrick};
ghost use Rattle.core_steps.specs.Boxes.{AreRangeEnds};
ghost use Rattle.cube_values.specs.Spans.{IsSoundPart};
ghost use Rattle.cube_values.specs.declared.span.Part.TheVariants.{Between};

use cube_values::{CubeShape, Part, Parts, Size, Span};
use std::alloc::Global;

/// The box of the coordinates from one to another, both included. None: memory ran out.
pub(crate) fn box_between(alloc: Global, low: u32, high: u32) -> Option<Span>
    ensures { IfSome result (λ s. s.parts ≡ Between low high ∷ []) }
{
    let mut parts = Parts::new(alloc);
    parts.push(Part::Between(low, high)).ok()?;
    Some(Span { parts })
}

// Whether a range of so many coordinates begins with one coordinate, and one ends with the other.
fn are_range_ends(range: u32, low: u32, high: u32) -> bool
    ensures { IsTrue result → AreRangeEnds range low high }
{
    if range == 0 {
        return false;
    }
    low % range == 0 && (u64::from(high) + 1) % u64::from(range) == 0
}

// Whether the box cuts no brick of a cube of these sizes, of which there is one.
fn cuts_no_brick(sizes: &[Size], low: u32, high: u32) -> bool
    ensures { IsTrue result → CutNoBrick sizes.now (Between low high ∷ []) }
{
    if sizes.len() != 1 {
        return false;
    }
    are_range_ends(sizes[0].range, low, high)
}

/// The box between two coordinates of a cube of one dimension. None: the cube has more, the box cuts a
/// brick, or memory ran out.
pub(crate) fn whole_box(alloc: Global, shape: &CubeShape, low: u32, high: u32) -> Option<Span>
    ensures parts { IfSome result (λ s. s.parts ≡ Between low high ∷ []) }
    ensures sound { IfSome result (λ s. All IsSoundPart s.parts) }
    ensures long { IfSome result (λ s. length s.parts ≡ length shape.now.shape.sizes) }
    ensures whole { IfSome result (λ s. CutNoBrick shape.now.shape.sizes s.parts) }
{
    let sizes = shape.shape.sizes.as_slice();
    if sizes.len() != 1 {
        return None;
    }
    if !cuts_no_brick(sizes, low, high) {
        return None;
    }
    box_between(alloc, low, high)
}
