//! Bricks and queries for the tests, and the rows that a reader finds.

ghost use Rattle.std.specs.List.{AllByRecursion};
ghost use Rattle.std.specs.Prelude.{◌≡◌, ◌∷◌, [], ◌+◌, ◌<◌, ◌≤◌, ◌^◌, IfOk, IfSome, IsTrue, All, length};
ghost use Rattle.cube_values.specs.Queries.{IsSoundItem, IsSoundQuery};
ghost use Rattle.cube_values.specs.Shapes.{bricks_of, IsSoundShape, IsSoundSize};
ghost use Rattle.cube_values.specs.Spans.{IsSoundPart, Rises};
ghost use Rattle.brick_address.specs.Addresses.{AreCoords, LieIn};
ghost use Rattle.cube_values.specs.Batches.{rows_between};
ghost use Rattle.brick_store.specs.Bricks.{IsRowOf};

use crate::tables::numbers_of;
use agg_fold::Partial;
use brick_address::brick_of;
use brick_store::{Brick, Scratch};
use cube_values::{
    BoundItem, BoundItems, BoundQuery, CodedRows, Coords, EpochList, NameLists, Part, Parts, Shape,
    Size, Sizes, Snapshot, Span, Table,
};
use std::alloc::{AllocError, Global};
use std::process::Abort;

// A cardinality and a range with a colon between them.
fn size_of(word: &str) -> Option<Size> {
    let (cardinality, range) = word.split_once(':')?;
    Some(Size {
        cardinality: cardinality.parse::<u32>().ok()?,
        range: range.parse::<u32>().ok()?,
    })
}

/// A cube of dimensions with these cardinalities and range sizes.
pub fn shape_of(rt: &impl Abort, alloc: Global, sizes: &str) -> Shape {
    let mut made = Vec::new(alloc);
    for word in sizes.split_whitespace() {
        let size = size_of(word).expect(rt, "a size");
        made.push(size).expect(rt, "memory");
    }
    Shape {
        sizes: Sizes::from_vec(made),
    }
}

// The number of bricks, where each size is sound and the bricks are few enough.
fn sound_bricks(sizes: &[Size]) -> Option<u64>
    ensures sound { IfSome result (λ n. All IsSoundSize sizes.now) }
    ensures bricks { IfSome result (λ n. n ≡ bricks_of sizes.now) }
    ensures most { IfSome result (λ n. n ≤ 2 ^ 62) }
{
    let [size, rest @ ..] = sizes else {
        return Some(1);
    };
    let bricks = sound_bricks(rest)?;
    if size.range == 0 || size.range > size.cardinality {
        return None;
    }
    let ranges = (u64::from(size.cardinality) + u64::from(size.range - 1)) / u64::from(size.range);
    let product = ranges.checked_mul(bricks)?;
    if product <= 1 << 62 {
        Some(product)
    } else {
        None
    }
}

// Whether the shape is sound and has the brick.
fn has_brick(shape: &Shape, number: u64) -> bool
    ensures sound { IsTrue result → IsSoundShape shape.now }
    ensures brick { IsTrue result → number < bricks_of shape.now.sizes }
{
    if shape.sizes.len() > 16 {
        return false;
    }
    match sound_bricks(shape.sizes.as_slice()) {
        Some(bricks) => number < bricks,
        None => false,
    }
}

// Whether there is a coordinate for each size, below it.
fn are_coords(sizes: &[Size], coords: &[u32]) -> bool
    ensures { IsTrue result → AreCoords sizes.now coords.now }
{
    let [size, sizes_rest @ ..] = sizes else {
        return coords.is_empty();
    };
    let [coord, coords_rest @ ..] = coords else {
        return false;
    };
    *coord < size.cardinality && are_coords(sizes_rest, coords_rest)
}

// Whether coordinates lie in a brick.
fn lie_in(shape: &Shape, number: u64, coords: &[u32]) -> bool
    ensures { IsTrue result → LieIn shape.now.sizes number coords.now }
{
    has_brick(shape, number)
        && are_coords(shape.sizes.as_slice(), coords)
        && brick_of(shape, coords) == number
}

// Whether the rows from one place up to another are of a brick, with one metric each.
fn are_rows_of(shape: &Shape, number: u64, batch: &CodedRows, from: usize, to: usize) -> bool
    requires order { from ≤ to }
    requires within { to ≤ length batch.now.rows }
    ensures { IsTrue result → All
        (IsRowOf (record { sizes = shape.now.sizes; metrics = 1; number = number }))
        (rows_between from to batch.now.rows) }
{
    'rows: for i in from..to {
        if !lie_in(shape, number, batch.coords_of(i)) || batch.metrics_of(i).len() != 1 {
            return false;
        }
    }
    true
}

// A brick without rows, of one metric.
fn empty_brick(rt: &impl Abort, alloc: Global, shape: &Shape, number: u64) -> Brick
    ensures { result.home ≡ record { sizes = shape.now.sizes; metrics = 1; number = number } }
{
    assert!(rt; has_brick(shape, number));
    Brick::new(alloc, shape, 1, number).expect(rt, "memory")
}

// Appends the rows of a batch from one place up to another. Where there is none, deletes.
fn step(
    rt: &impl Abort,
    brick: &mut Brick,
    shape: &Shape,
    number: u64,
    epoch: u64,
    batch: &CodedRows,
    from: usize,
    to: usize,
)
    requires { brick.old.home ≡ record { sizes = shape.now.sizes; metrics = 1; number = number } }
    ensures { brick.new.home ≡ brick.old.home }
{
    assert!(rt; from <= to && to <= batch.len());
    assert!(rt; from == to || are_rows_of(shape, number, batch, from, to));
    brick.prepare((to - from) as u64, 1).expect(rt, "memory");
    if from == to {
        brick.mark(epoch);
    } else {
        brick.append(epoch, batch, from, to);
    }
}

fn is_sound_item(group: &[u32], metrics: usize, item: BoundItem) -> bool
    ensures { IsTrue result → IsSoundItem group.now metrics item }
{
    match item {
        BoundItem::Group(dim) => group.contains(&dim),
        BoundItem::Count => true,
        BoundItem::Sum(metric) => (metric as usize) < metrics,
        BoundItem::Min(metric) => (metric as usize) < metrics,
        BoundItem::Max(metric) => (metric as usize) < metrics,
        BoundItem::Avg(metric) => (metric as usize) < metrics,
    }
}

fn all_below(group: &[u32], dims: usize) -> bool
    ensures { IsTrue result → All (λ dim. dim < dims) group.now }
{
    'dims: for dim in group {
        if *dim as usize >= dims {
            return false;
        }
    }
    true
}

fn all_sound(items: &[BoundItem], group: &[u32], metrics: usize) -> bool
    ensures { IsTrue result → All (IsSoundItem group.now metrics) items.now }
{
    'items: for item in items {
        if !is_sound_item(group, metrics, *item) {
            return false;
        }
    }
    true
}

// Whether the query is sound.
fn is_sound(query: &BoundQuery, dims: usize, metrics: usize) -> bool
    ensures { IsTrue result → IsSoundQuery query.now dims metrics }
{
    if query.span.parts.len() != dims {
        return false;
    }
    if !all_below(query.group.as_slice(), dims) {
        return false;
    }
    all_sound(query.items.as_slice(), query.group.as_slice(), metrics)
}

// Whether a coordinate is below all of some.
fn is_below(coord: u32, coords: &[u32]) -> bool
    ensures { IsTrue result → AllByRecursion (λ c. coord < c) coords.now }
{
    let [first, rest @ ..] = coords else {
        return true;
    };
    coord < *first && is_below(coord, rest)
}

// Whether coordinates rise strictly.
fn rise(coords: &[u32]) -> bool
    ensures { IsTrue result → Rises coords.now }
{
    let [first, rest @ ..] = coords else {
        return true;
    };
    is_below(*first, rest) && rise(rest)
}

// Whether the part is sound.
fn is_sound_part(part: &Part) -> bool
    ensures { IsTrue result → IsSoundPart part.now }
{
    match part {
        Part::All => true,
        Part::Between(..) => true,
        Part::Listed(coords) => rise(coords.as_slice()),
    }
}

// Whether each part is sound.
fn are_sound_parts(parts: &[Part]) -> bool
    ensures { IsTrue result → All IsSoundPart parts.now }
{
    let [part, rest @ ..] = parts else {
        return true;
    };
    is_sound_part(part) && are_sound_parts(rest)
}

/// For each combination of coordinates in some dimensions what is asked, of the rows that lie in the parts.
pub fn query(
    alloc: Global,
    parts: Vec<Part>,
    group: &[u32],
    asked: &[BoundItem],
) -> Result<BoundQuery, AllocError> {
    let mut dims = Vec::new(alloc);
    let mut items = Vec::new(alloc);
    for dim in group {
        dims.push(*dim)?;
        items.push(BoundItem::Group(*dim))?;
    }
    items.extend_from_slice(asked)?;
    Ok(BoundQuery {
        cube: 0,
        span: Span {
            parts: Parts::from_vec(parts),
        },
        group: Coords::from_vec(dims),
        items: BoundItems::from_vec(items),
    })
}

// The table of the rows of a brick that a snapshot sees.
fn table_of(
    rt: &impl Abort,
    alloc: Global,
    brick: &Brick,
    shape: &Shape,
    query: &BoundQuery,
    snapshot: &Snapshot,
    names: &NameLists,
) -> Result<Table, AllocError>
    requires shape { brick.now.home.sizes ≡ shape.now.sizes }
    requires metrics { brick.now.home.metrics ≡ 1 }
{
    let mut partial = Partial::new(alloc);
    assert!(rt; is_sound(query, shape.sizes.len(), 1));
    assert!(rt; are_sound_parts(query.span.parts.as_slice()));
    assert!(rt; brick.len() < 1 << 62);
    let mut scratch = Scratch::new(alloc)?;
    brick.scan(query, snapshot, &mut scratch, &mut partial)?;
    partial.finish(query, names)
}

/// The table of the rows of a brick that a snapshot sees.
pub fn table(
    rt: &impl Abort,
    alloc: Global,
    brick: &Brick,
    shape: &Shape,
    query: &BoundQuery,
    snapshot: &Snapshot,
    names: &NameLists,
) -> Table
    requires shape { brick.now.home.sizes ≡ shape.now.sizes }
    requires metrics { brick.now.home.metrics ≡ 1 }
{
    table_of(rt, alloc, brick, shape, query, snapshot, names).expect(rt, "memory")
}

/// A reader at an epoch.
pub fn reader(epoch: u64) -> Snapshot {
    Snapshot {
        epoch,
        deps: EpochList::new(),
        own: false,
    }
}

/// A batch without rows of one metric, with room for so many.
pub fn empty_batch(alloc: Global, dims: usize, rows: usize) -> Result<CodedRows, AllocError>
    ensures { IfOk result (λ made. made.width ≡ 1) }
{
    let mut batch = CodedRows::new(alloc, dims, 1);
    batch.reserve(rows)?;
    Ok(batch)
}

/// Puts a row at the end of a batch.
pub fn put(rt: &impl Abort, batch: &mut CodedRows, coords: &[u32], metric: i64)
    requires { batch.old.width ≡ 1 }
    ensures { batch.new.width ≡ 1 }
{
    assert!(rt; batch.len() < batch.room() && batch.dims() == coords.len());
    batch.push(coords, &[metric]);
}

// Puts the row of a text: its coordinates and, behind a `|`, its metric.
fn put_text(rt: &impl Abort, alloc: Global, batch: &mut CodedRows, row: &str)
    requires { batch.old.width ≡ 1 }
    ensures { batch.new.width ≡ 1 }
{
    let (coords, metric) = row.split_once('|').expect(rt, "a row");
    let metric = metric.trim().parse::<i64>().ok().expect(rt, "a metric");
    let coords = numbers_of(rt, alloc, coords);
    put(rt, batch, coords.as_slice(), metric);
}

/// A batch of the rows of a text, with commas between them.
pub fn batch_of(rt: &impl Abort, alloc: Global, dims: usize, rows: &str) -> CodedRows {
    let mut batch = empty_batch(alloc, dims, rows.split(',').count()).expect(rt, "memory");
    'rows: for row in rows.split(',') {
        put_text(rt, alloc, &mut batch, row);
    }
    batch
}

/// A brick of the rows of a batch, so many for each step; a step of none deletes.
pub fn brick_of_steps(
    rt: &impl Abort,
    alloc: Global,
    shape: &Shape,
    number: u64,
    batch: &CodedRows,
    steps: &[(u64, usize)],
) -> Brick
    ensures { result.home ≡ record { sizes = shape.now.sizes; metrics = 1; number = number } }
{
    let mut brick = empty_brick(rt, alloc, shape, number);
    let mut at: usize = 0;
    'steps: for (epoch, rows) in steps {
        let to = at.saturating_add(*rows);
        step(rt, &mut brick, shape, number, *epoch, batch, at, to);
        at = to;
    }
    brick
}
