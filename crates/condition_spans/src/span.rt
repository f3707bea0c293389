//! The span of conditions.

ghost use Rattle.std.specs.Prelude.{◌≡◌, ◌<◌, ◌≤◌, length, All, IfOk};
ghost use Rattle.cube_values.specs.declared.shape.TheConstants.{MOST_COLUMNS};
ghost use Rattle.cube_values.specs.Shapes.{IsSoundSize, IsSoundShape};
ghost use Rattle.cube_values.specs.Spans.{IsSoundPart};
ghost use Rattle.condition_spans.specs.CodedConditions.{coded_conditions};
ghost use Rattle.condition_spans.specs.Spans.{ArePartsOf, IsSpanOf};

use crate::part::part_at;
use cube_values::{Condition, Part, Parts, Shape, Size, Span};
use std::alloc::{AllocError, Global};

/// The part of each dimension.
fn parts_of(
    alloc: Global,
    sizes: &[Size],
    conditions: &[Condition],
    codes: &[Option<u32>],
) -> Result<Vec<Part>, AllocError>
    requires sizes { All IsSoundSize sizes.now }
    requires few { length sizes.now ≤ MOST_COLUMNS }
    ensures parts { IfOk result (λ parts.
        ArePartsOf (coded_conditions codes.now conditions.now) 0 sizes.now parts.items) }
    ensures sound { IfOk result (λ parts. All IsSoundPart parts.items) }
{
    let mut parts = Vec::new(alloc);
    let mut place = 0;
    let mut left = sizes;
    'sizes: while let [size, rest @ ..] = left {
        parts.push(part_at(alloc, size.cardinality, place, conditions, codes)?)?;
        place += 1;
        left = rest;
    }
    Ok(parts)
}

/// The span of conditions on dimensions of a cube, with each text of theirs read as its code. It has a part
/// for each dimension.
pub fn span_for(
    alloc: Global,
    shape: &Shape,
    conditions: &[Condition],
    codes: &[Option<u32>],
) -> Result<Span, AllocError>
    requires shape { IsSoundShape shape.now }
    requires places { All (λ c. c.place < length shape.now.sizes) conditions.now }
    ensures span { IfOk result
        (IsSpanOf shape.now.sizes (coded_conditions codes.now conditions.now)) }
    ensures parts { IfOk result (λ span.
        ArePartsOf (coded_conditions codes.now conditions.now) 0 shape.now.sizes span.parts) }
    ensures sound { IfOk result (λ span. All IsSoundPart span.parts) }
    ensures same { IfOk result (λ span. length span.parts ≡ length shape.now.sizes) }
{
    let parts = parts_of(alloc, shape.sizes.as_slice(), conditions, codes)?;
    Ok(Span {
        parts: Parts::from_vec(parts),
    })
}
