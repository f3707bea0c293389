//! Tests of what the calls of a shard require.

ghost use Rattle.std.specs.List.{AllByRecursion};
ghost use Rattle.std.specs.Prelude.{◌≡◌, ◌<◌, IsTrue, All, length};
ghost use Rattle.cube_values.specs.Queries.{IsSoundItem, IsSoundQuery};
ghost use Rattle.cube_values.specs.Shapes.{IsSoundShape, bricks_of};
ghost use Rattle.cube_values.specs.Spans.{IsSoundPart, Rises};
ghost use Rattle.condition_spans.specs.Spans.{CutNoBrick};
ghost use Rattle.shard_cases.specs.Drawn.{TakesWhole};

use brick_address::{Cover, bricks_of, coords_and_addresses_agree, covers};
use cube_values::{BoundItem, BoundQuery, Part, Shape, Span};

/// Whether an item names a dimension of the group, or a metric.
fn is_sound_item(group: &[u32], metrics: u32, item: BoundItem) -> bool
    ensures { IsTrue result → IsSoundItem group.now metrics item }
{
    match item {
        BoundItem::Group(dim) => group.contains(&dim),
        BoundItem::Count => true,
        BoundItem::Sum(metric) => metric < metrics,
        BoundItem::Min(metric) => metric < metrics,
        BoundItem::Max(metric) => metric < metrics,
        BoundItem::Avg(metric) => metric < metrics,
    }
}

/// Whether each item is sound.
fn are_sound_items(items: &[BoundItem], group: &[u32], metrics: u32) -> bool
    ensures { IsTrue result → All (IsSoundItem group.now metrics) items.now }
{
    items
        .iter()
        .all(|item| is_sound_item(group, metrics, *item))
}

/// Whether each dimension is one of the cube's.
fn are_dims(group: &[u32], dims: usize) -> bool
    ensures { IsTrue result → All (λ dim. dim < dims) group.now }
{
    group.iter().all(|dim| (*dim as usize) < dims)
}

/// Whether the query fits a cube of so many dimensions and metrics.
pub fn is_sound_query(query: &BoundQuery, dims: usize, metrics: u32) -> bool
    ensures { IsTrue result → IsSoundQuery query.now dims metrics }
{
    if query.span.parts.len() != dims {
        return false;
    }
    if !are_dims(query.group.as_slice(), dims) {
        return false;
    }
    are_sound_items(query.items.as_slice(), query.group.as_slice(), metrics)
}

/// Whether a coordinate is below all of some.
fn is_below(coord: u32, coords: &[u32]) -> bool
    ensures { IsTrue result → AllByRecursion (λ c. coord < c) coords.now }
{
    let [first, rest @ ..] = coords else {
        return true;
    };
    coord < *first && is_below(coord, rest)
}

/// Whether coordinates rise strictly.
fn rise(coords: &[u32]) -> bool
    ensures { IsTrue result → Rises coords.now }
{
    let [first, rest @ ..] = coords else {
        return true;
    };
    is_below(*first, rest) && rise(rest)
}

/// Whether the part is sound.
fn is_sound_part(part: &Part) -> bool
    ensures { IsTrue result → IsSoundPart part.now }
{
    match part {
        Part::All => true,
        Part::Between(..) => true,
        Part::Listed(coords) => rise(coords.as_slice()),
    }
}

/// Whether each part is sound.
pub fn are_sound_parts(parts: &[Part]) -> bool
    ensures { IsTrue result → All IsSoundPart parts.now }
{
    let [part, rest @ ..] = parts else {
        return true;
    };
    is_sound_part(part) && are_sound_parts(rest)
}

/// Whether the box has all or nothing of a brick.
fn takes_whole(shape: &Shape, span: &Span, number: u64) -> bool
    requires shape { IsSoundShape shape.now }
    requires parts { All IsSoundPart span.now.parts }
    requires brick { number < bricks_of shape.now.sizes }
    ensures { IsTrue result → TakesWhole shape.now.sizes span.now.parts number }
{
    match covers(shape, span, number) {
        Cover::Inside | Cover::Outside => true,
        Cover::Cut { .. } => false,
    }
}

/// Whether the box cuts no brick of the cube, by a look at each.
pub fn cuts_none(shape: &Shape, span: &Span) -> bool
    requires shape { IsSoundShape shape.now }
    requires parts { All IsSoundPart span.now.parts }
    ensures { IsTrue result → CutNoBrick shape.now.sizes span.now.parts }
{
    coords_and_addresses_agree();
    'bricks: for number in 0..bricks_of(shape.sizes.as_slice()) {
        if !takes_whole(shape, span, number) {
            return false;
        }
    }
    true
}
