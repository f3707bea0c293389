//! What is drawn for the calls on a shard.

use crate::past::PlainRow;
use crate::plain_lines::is_table;
use crate::two_cubes::{metrics_at, size, sizes_at};
use cube_values::{
    BoundItem, BoundItems, BoundQuery, Coords, EpochList, Part, Parts, Size, Snapshot, Span, Table,
};
use std::alloc::{AllocError, Global};

/// How many epochs may write after a purge.
const EPOCHS: u32 = 7;

/// Numbers that look as if drawn by chance, the same in each run.
#[derive(Drop)]
pub struct Draws {
    pub state: u64,
}

impl Draws {
    /// A number below another.
    pub fn below(&mut self, n: u32) -> u32 {
        self.state = self
            .state
            .wrapping_mul(6_364_136_223_846_793_005)
            .wrapping_add(1_442_695_040_888_963_407);
        let high = u32::try_from(self.state >> 33).unwrap_or(0);
        high.checked_rem(n).unwrap_or(0)
    }

    /// An epoch that may write after a purge.
    pub fn write_epoch(&mut self, purged: u64) -> u64 {
        purged
            .saturating_add(u64::from(self.below(EPOCHS)))
            .saturating_add(1)
    }

    /// An epoch that may be read after a purge, perhaps above all that wrote.
    pub fn read_epoch(&mut self, purged: u64) -> u64 {
        purged.saturating_add(u64::from(self.below(EPOCHS + 2)))
    }

    /// An epoch of the next purge: one that is below the last, the same, or above it.
    pub fn purge_epoch(&mut self, purged: u64) -> u64 {
        purged
            .saturating_add(u64::from(self.below(6)))
            .saturating_sub(1)
    }

    /// A metric, some close to the ends of 64 bits.
    fn metric(&mut self) -> i64 {
        let small = i64::from(self.below(101) % 101);
        match self.below(16) {
            0 => i64::MIN + small,
            1 => i64::MAX - small,
            _ => small - 50,
        }
    }
}

/// Rows of a cube, some beside their neighbour.
pub fn some_rows(alloc: Global, draws: &mut Draws, cube: u32) -> Result<Vec<PlainRow>, AllocError> {
    let [x, y] = sizes_at(cube);
    let mut rows = Vec::new(alloc);
    let mut coords = [0, 0];
    for _ in 0..draws.below(12) {
        if draws.below(3) != 0 {
            coords = [draws.below(x.cardinality), draws.below(y.cardinality)];
        }
        rows.push(PlainRow {
            coords,
            metrics: [draws.metric(), draws.metric()],
        })?;
    }
    Ok(rows)
}

/// The first coordinate of a range.
fn some_start(draws: &mut Draws, dim: Size) -> u32 {
    let coord = draws.below(dim.cardinality);
    coord.saturating_sub(coord.checked_rem(dim.range).unwrap_or(0))
}

/// The coordinates of some ranges.
fn some_ranges(alloc: Global, draws: &mut Draws, dim: Size) -> Result<Coords, AllocError> {
    let mut coords = Coords::new(alloc);
    let mut taken = false;
    for coord in 0..dim.cardinality {
        if coord.checked_rem(dim.range) == Some(0) {
            taken = draws.below(2) == 0;
        }
        if taken {
            coords.push(coord)?;
        }
    }
    Ok(coords)
}

/// A part from one range up to another.
fn part_between(dim: Size, first: u32, last: u32) -> Part {
    Part::Between(first, last.saturating_add(dim.range).saturating_sub(1))
}

/// A part that has all or nothing of each range. In so many of four draws it has every coordinate.
fn some_part(alloc: Global, draws: &mut Draws, dim: Size, all: u32) -> Result<Part, AllocError> {
    if draws.below(4) < all {
        return Ok(Part::All);
    }
    let first = some_start(draws, dim);
    let last = some_start(draws, dim);
    match draws.below(6) {
        0 | 1 => Ok(Part::Listed(some_ranges(alloc, draws, dim)?)),
        // Nothing, where the first is above the last.
        2 => Ok(part_between(dim, first, last)),
        _ => Ok(part_between(dim, first.min(last), first.max(last))),
    }
}

/// A box of a cube that cuts no brick.
pub fn some_box(alloc: Global, draws: &mut Draws, cube: u32) -> Result<Span, AllocError> {
    let [x, y] = sizes_at(cube);
    let first = some_part(alloc, draws, x, 1)?;
    let second = some_part(alloc, draws, y, 1)?;
    Ok(Span {
        parts: Parts::from_vec(vec![in alloc; first, second]?),
    })
}

/// A span of a cube that may cut bricks.
fn some_span(alloc: Global, draws: &mut Draws, cube: u32) -> Result<Span, AllocError> {
    let [x, y] = sizes_at(cube);
    let first = some_part(alloc, draws, size(x.cardinality, 1), 2)?;
    let second = some_part(alloc, draws, size(y.cardinality, 1), 2)?;
    Ok(Span {
        parts: Parts::from_vec(vec![in alloc; first, second]?),
    })
}

/// Some dimensions, in some order.
fn some_group(draws: &mut Draws) -> &'static [u32] {
    match draws.below(5) {
        0 => &[],
        1 => &[0],
        2 => &[1],
        3 => &[0, 1],
        _ => &[1, 0],
    }
}

/// A query, and the metric that it asks for.
#[derive(Drop)]
pub struct Question {
    pub query: BoundQuery,
    pub metric: u32,
}

impl Question {
    /// Whether a table is its answer over rows.
    pub fn is_answer(
        &self,
        alloc: Global,
        table: &Table,
        rows: &[PlainRow],
    ) -> Result<bool, AllocError> {
        is_table(alloc, table, rows, self.query.group.as_slice(), self.metric)
    }
}

/// A query over one of the cubes: for each group its count, and four totals of a metric.
pub fn some_question(alloc: Global, draws: &mut Draws) -> Result<Question, AllocError> {
    let cube = draws.below(2);
    let metric = draws.below(metrics_at(cube));
    let group = some_group(draws);
    let mut items = Vec::new(alloc);
    for dim in group {
        items.push(BoundItem::Group(*dim))?;
    }
    items.push(BoundItem::Count)?;
    items.push(BoundItem::Sum(metric))?;
    items.push(BoundItem::Min(metric))?;
    items.push(BoundItem::Max(metric))?;
    items.push(BoundItem::Avg(metric))?;
    Ok(Question {
        query: BoundQuery {
            cube,
            span: some_span(alloc, draws, cube)?,
            group: Coords::from_vec(Vec::from_slice(alloc, group)?),
            items: BoundItems::from_vec(items),
        },
        metric,
    })
}

/// A reader at an epoch.
pub fn reader(epoch: u64) -> Snapshot {
    Snapshot {
        epoch,
        deps: EpochList::new(),
        own: false,
    }
}

/// A reader, or a writer with some of the epochs before its own as deps, for which a purge at an epoch is
/// admissible.
pub fn some_snapshot(draws: &mut Draws, purged: u64) -> Snapshot {
    let mut snapshot = reader(draws.read_epoch(purged));
    if draws.below(2) == 0 {
        return snapshot;
    }
    snapshot.own = true;
    snapshot.epoch = draws.write_epoch(purged);
    for more in 1..u64::from(EPOCHS) {
        let dep = purged.saturating_add(more);
        let chosen = dep < snapshot.epoch && draws.below(3) == 0;
        if chosen && snapshot.deps.as_slice().len() < EpochList::MOST {
            snapshot.deps.push(dep);
        }
    }
    snapshot
}
