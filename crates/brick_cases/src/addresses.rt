//! The numbers of bricks, and covers against a walk over all coordinates.

ghost use Rattle.std.specs.Prelude.{◌≡◌, ◌<◌, ◌≤◌, ◌^◌, IfOk, IfSome, IsTrue, All, length, get_or, ◌∷◌, []};
ghost use Rattle.cube_values.specs.Shapes.{ranges_of, bricks_of, IsSoundSize, IsSoundShape};
ghost use Rattle.cube_values.specs.Spans.{IsSoundPart};
ghost use Rattle.brick_address.specs.Addresses.{size_at, AreCoords};

use brick_address::{Cover, brick_of, coord_of, coords_and_addresses_agree, covers, offset_of};
use cube_values::{Coords, Part, Parts, Shape, Size, Sizes, Span};
use std::alloc::{AllocError, Global};
use std::process::Abort;

// A cardinality and a range with a colon between them.
fn size_of(word: &str) -> Option<Size> {
    let (cardinality, range) = word.split_once(':')?;
    Some(Size {
        cardinality: cardinality.parse::<u32>().ok()?,
        range: range.parse::<u32>().ok()?,
    })
}

// A cube of dimensions with these sizes.
fn shape_of(rt: &impl Abort, alloc: Global, text: &str) -> Shape {
    let mut items = Vec::new(alloc);
    for word in text.split_whitespace() {
        let size = size_of(word).expect(rt, "a size");
        items.push(size).expect(rt, "memory");
    }
    Shape {
        sizes: Sizes::from_vec(items),
    }
}

fn numbers_of(rt: &impl Abort, alloc: Global, text: &str) -> Vec<u32> {
    let mut numbers = Vec::new(alloc);
    for word in text.split_whitespace() {
        let number = word.parse::<u32>().ok().expect(rt, "a number");
        numbers.push(number).expect(rt, "memory");
    }
    numbers
}

/// The number of ranges of a dimension, the last of which may be shorter.
fn ranges_of(size: &Size) -> u64
    requires { IsSoundSize size.now }
    ensures { result ≡ ranges_of size.now }
{
    let range = u64::from(size.range);
    (u64::from(size.cardinality) + (range - 1)) / range
}

/// The number of bricks, where each size is sound and the bricks are few enough.
fn sound_bricks(sizes: &[Size]) -> Option<u64>
    ensures sound { IfSome result (λ n. All IsSoundSize sizes.now) }
    ensures bricks { IfSome result (λ n. n ≡ bricks_of sizes.now) }
    ensures most { IfSome result (λ n. n ≤ 2 ^ 62) }
{
    let [size, rest @ ..] = sizes else {
        return Some(1);
    };
    let bricks = sound_bricks(rest)?;
    if size.range == 0 || size.range > size.cardinality {
        return None;
    }
    let product = ranges_of(size).checked_mul(bricks)?;
    if product <= 1 << 62 {
        Some(product)
    } else {
        None
    }
}

fn are_coords(sizes: &[Size], coords: &[u32]) -> bool
    ensures { IsTrue result → AreCoords sizes.now coords.now }
{
    let [size, sizes_rest @ ..] = sizes else {
        return coords.is_empty();
    };
    let [coord, coords_rest @ ..] = coords else {
        return false;
    };
    *coord < size.cardinality && are_coords(sizes_rest, coords_rest)
}

/// The coordinate of a dimension, from the brick and the offset of its coordinates.
fn coord_again(shape: &Shape, coords: &[u32], dim: u32) -> u32
    requires shape { IsSoundShape shape.now }
    requires coords { AreCoords shape.now.sizes coords.now }
    requires dim { dim < length shape.now.sizes }
    requires there { dim < length coords.now }
    requires coord { get_or coords.now dim 0 < (size_at shape.now.sizes dim).cardinality }
{
    coords_and_addresses_agree();
    let offset = offset_of(shape, dim, coords[dim as usize]);
    coord_of(shape, brick_of(shape, coords), dim, offset)
}

// Whether the coordinates have these offsets, which give them back.
fn have_offsets(shape: &Shape, coords: &[u32], offsets: &[u32]) -> bool
    requires shape { IsSoundShape shape.now }
    requires coords { AreCoords shape.now.sizes coords.now }
{
    let sizes = shape.sizes.as_slice();
    if coords.len() != sizes.len() || offsets.len() != sizes.len() {
        return false;
    }
    for dim in 0..sizes.len() {
        let coord = coords[dim];
        if coord >= sizes[dim].cardinality
            || offset_of(shape, dim as u32, coord) != offsets[dim]
            || coord_again(shape, coords, dim as u32) != coord
        {
            return false;
        }
    }
    true
}

// Whether the address of coordinates is this brick with these offsets, and gives the coordinates back.
fn is_address(shape: &Shape, coords: &[u32], brick: u64, offsets: &[u32]) -> bool {
    let sizes = shape.sizes.as_slice();
    let Some(bricks) = sound_bricks(sizes) else {
        return false;
    };
    sizes.len() <= 16
        && brick < bricks
        && are_coords(sizes, coords)
        && brick_of(shape, coords) == brick
        && have_offsets(shape, coords, offsets)
}

// Sizes of dimensions, each a cardinality and a range, then coordinates, the number of their brick and their offsets.
const ADDRESSES: &str = "\
5:2 | 0 | 0 | 0
5:2 | 1 | 0 | 1
5:2 | 2 | 1 | 0
5:2 | 3 | 1 | 1
5:2 | 4 | 2 | 0
5:2 4:2 | 4 3 | 5 | 0 1
5:2 4:2 | 1 3 | 1 | 1 1
5:2 4:2 | 2 0 | 2 | 0 0
10:1 | 7 | 7 | 0
10:10 | 7 | 0 | 7
4294967295:4294967295 | 4294967294 | 0 | 4294967294
4294967295:1 | 4294967294 | 4294967294 | 0
4294967295:2147483648 | 4294967294 | 1 | 2147483646
2147483648:1 2147483648:1 | 2147483647 2147483647 | 4611686018427387903 | 0 0
| | 0 |
2:1 2:1 2:1 2:1 2:1 2:1 2:1 2:1 2:1 2:1 2:1 2:1 2:1 2:1 2:1 2:1 | 1 1 1 1 1 1 1 1 1 1 1 1 1 1 1 1 | 65535 | 0 0 0 0 0 0 0 0 0 0 0 0 0 0 0 0
3:2 3:2 3:2 3:2 3:2 3:2 3:2 3:2 3:2 3:2 3:2 3:2 3:2 3:2 3:2 3:2 | 2 0 0 0 0 0 0 0 0 0 0 0 0 0 0 1 | 32768 | 0 0 0 0 0 0 0 0 0 0 0 0 0 0 0 1";

// Whether the address of a row is as it says.
fn has_address(rt: &impl Abort, alloc: Global, row: &str) -> Option<bool> {
    let (sizes, row) = row.split_once('|')?;
    let (coords, row) = row.split_once('|')?;
    let (brick, offsets) = row.split_once('|')?;
    let brick = brick.trim().parse::<u64>().ok()?;
    let shape = shape_of(rt, alloc, sizes);
    let coords = numbers_of(rt, alloc, coords);
    let offsets = numbers_of(rt, alloc, offsets);
    Some(is_address(&shape, coords.as_slice(), brick, offsets.as_slice()))
}

#[test]
fn numbers_bricks(rt: HostRuntime) {
    coords_and_addresses_agree();
    for row in ADDRESSES.lines() {
        assert!(rt; has_address(&rt, rt.alloc(), row) == Some(true), "{row}");
    }
}

/// Parts of a dimension: intervals within and beyond its coordinates, and lists that rise.
fn part_of(alloc: Global, number: u32) -> Result<Part, AllocError>
    ensures { IfOk result IsSoundPart }
{
    Ok(match number {
        0 => Part::All,
        1 => Part::Between(0, 1),
        2 => Part::Between(1, 2),
        3 => Part::Between(2, 9),
        4 => Part::Between(3, 1),
        5 => Part::Between(4, u32::MAX),
        6 => Part::Between(6, 7),
        7 => Part::Listed(Coords::new(alloc)),
        8 => Part::Listed(Coords::from_vec(vec![in alloc; 0, 1]?)),
        9 => Part::Listed(Coords::from_vec(vec![in alloc; 0, 2, 4]?)),
        10 => Part::Listed(Coords::from_vec(vec![in alloc; 2, 3, 9]?)),
        _ => Part::Listed(Coords::from_vec(vec![in alloc; 4]?)),
    })
}

fn span_of(alloc: Global, first: u32, second: u32) -> Result<Span, AllocError>
    ensures { IfOk result (λ s. All IsSoundPart s.parts) }
{
    let parts = vec![in alloc; part_of(alloc, first)?, part_of(alloc, second)?]?;
    Ok(Span {
        parts: Parts::from_vec(parts),
    })
}

// What a walk has found of the coordinates of a brick.
#[derive(Clone, Copy)]
struct Walked {
    has_all: bool,
    has_none: bool,
    first_lacks: bool,
}

// The walk after two coordinates more, of which those of the brick count.
fn walk(
    rt: &impl Abort,
    shape: &Shape,
    span: &Span,
    brick: u64,
    at: [u32; 2],
    so_far: Walked,
) -> Walked
    requires { IsSoundShape shape.now }
{
    let parts = span.parts.as_slice();
    assert!(rt; parts.len() == 2 && are_coords(shape.sizes.as_slice(), &at));
    if brick_of(shape, &at) != brick {
        return so_far;
    }
    let has = span.has(&at);
    Walked {
        has_all: so_far.has_all && has,
        has_none: so_far.has_none && !has,
        first_lacks: so_far.first_lacks || !parts[0].has(at[0]),
    }
}

// The cover of a brick of five by four coordinates, by a walk over all of them.
fn walked_cover(rt: &impl Abort, shape: &Shape, span: &Span, brick: u64) -> Cover
    requires { IsSoundShape shape.now }
{
    let mut walked = Walked {
        has_all: true,
        has_none: true,
        first_lacks: false,
    };
    for x in 0..5 {
        for y in 0..4 {
            walked = walk(rt, shape, span, brick, [x, y], walked);
        }
    }
    if walked.has_none {
        Cover::Outside
    } else if walked.has_all {
        Cover::Inside
    } else {
        Cover::Cut {
            dimension: if walked.first_lacks { 0 } else { 1 },
        }
    }
}

// The first of six bricks whose cover is not the one that a walk finds.
fn wrong_brick(rt: &impl Abort, shape: &Shape, span: &Span) -> Option<u64>
    requires span { All IsSoundPart span.now.parts }
{
    assert!(rt; shape.sizes.len() <= 16);
    assert!(rt; sound_bricks(shape.sizes.as_slice()) == Some(6));
    for brick in 0..6 {
        if covers(shape, span, brick) != walked_cover(rt, shape, span, brick) {
            return Some(brick);
        }
    }
    None
}

// The same for the span of these parts.
fn wrong_in_span(
    rt: &impl Abort,
    alloc: Global,
    shape: &Shape,
    first: u32,
    second: u32,
) -> Option<u64> {
    let span = span_of(alloc, first, second).expect(rt, "memory");
    wrong_brick(rt, shape, &span)
}

#[test]
fn covers_as_a_walk_says(rt: HostRuntime) {
    let shape = shape_of(&rt, rt.alloc(), "5:2 4:2");
    for first in 0..12 {
        for second in 0..12 {
            let wrong = wrong_in_span(&rt, rt.alloc(), &shape, first, second);
            assert_eq!(rt; wrong, None, "{first} {second}");
        }
    }
}

// Whether one dimension of five in ranges of two has three bricks, and the cover of one by an interval is this.
fn has_cover(rt: &impl Abort, alloc: Global, part: Part, brick: u64, wanted: Cover) -> bool
    requires { IsSoundPart part }
{
    let shape = shape_of(rt, alloc, "5:2");
    let parts = vec![in alloc; part].expect(rt, "memory");
    let span = Span {
        parts: Parts::from_vec(parts),
    };
    shape.sizes.len() <= 16
        && sound_bricks(shape.sizes.as_slice()) == Some(3)
        && brick < 3
        && covers(&shape, &span, brick) == wanted
}

#[test]
fn covers_one_dimension(rt: HostRuntime) {
    let alloc = rt.alloc();
    let cut = Cover::Cut { dimension: 0 };
    assert!(rt; has_cover(&rt, alloc, Part::Between(0, 1), 0, Cover::Inside));
    assert!(rt; has_cover(&rt, alloc, Part::Between(0, 1), 1, Cover::Outside));
    assert!(rt; has_cover(&rt, alloc, Part::Between(0, 0), 0, cut));
    assert!(rt; has_cover(&rt, alloc, Part::Between(4, 4), 2, Cover::Inside));
}

#[test]
fn a_span_of_two_dimensions_misses_one(rt: HostRuntime) {
    let shape = shape_of(&rt, rt.alloc(), "5:2");
    let two = span_of(rt.alloc(), 0, 0).expect(&rt, "memory");
    assert!(rt; sound_bricks(shape.sizes.as_slice()) == Some(3) && shape.sizes.len() <= 16);
    assert_eq!(rt; covers(&shape, &two, 0), Cover::Outside);
}
