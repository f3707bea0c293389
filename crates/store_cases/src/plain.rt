//! Scans of bricks made from a seed, against a walk over the steps that made them.

ghost use Rattle.std.specs.Prelude.{◌≡◌};

use crate::making::{brick_of_steps, empty_batch, query, reader, shape_of, table};
use crate::plain_copies::compare_copies;
use crate::plain_lines::{agrees, names, plain_lines};
use crate::steps::{Past, put_rows, some_steps};
use brick_store::Brick;
use cube_values::{BoundItem, Coords, EpochList, NameLists, Part, Shape, Snapshot};
use std::alloc::{AllocError, Global};
use std::process::Abort;

// What is asked of each group.
const ASKED: [BoundItem; 5] = [
    BoundItem::Count,
    BoundItem::Sum(0),
    BoundItem::Min(0),
    BoundItem::Max(0),
    BoundItem::Avg(0),
];

// The next number of a series that looks like chance.
pub fn next(seed: &mut u64) -> u64 {
    *seed = seed
        .wrapping_mul(6_364_136_223_846_793_005)
        .wrapping_add(1_442_695_040_888_963_407);
    *seed >> 33
}

// A snapshot with deps among the epochs 1 to 5.
fn some_snapshot(seed: &mut u64) -> Snapshot {
    let mut snapshot = reader(next(seed) % 7);
    snapshot.own = next(seed) % 2 == 0;
    for epoch in 1..6 {
        if next(seed) % 4 == 0 && snapshot.deps.as_slice().len() < EpochList::MOST {
            snapshot.deps.push(epoch);
        }
    }
    snapshot
}

// A part of the texts below five.
fn some_texts(alloc: Global, seed: &mut u64) -> Result<Part, AllocError> {
    Ok(match next(seed) % 6 {
        0 => Part::Between(1, 1),
        1 => Part::Between(2, 4),
        2 => Part::Between(3, 2),
        3 => Part::Listed(Coords::from_vec(vec![in alloc; 0, 3, 4]?)),
        _ => Part::All,
    })
}

// A part of the numbers below a thousand.
fn some_numbers(alloc: Global, seed: &mut u64) -> Result<Part, AllocError> {
    Ok(match next(seed) % 6 {
        0 => Part::Between(0, 599),
        1 => Part::Between(1, 998),
        2 => Part::Between(599, 600),
        3 => Part::Listed(Coords::from_vec(vec![in alloc; 0, 2, 599, 600, 999]?)),
        _ => Part::All,
    })
}

// Some dimensions, in some order.
fn some_group(seed: &mut u64) -> &'static [u32] {
    match next(seed) % 5 {
        0 => &[],
        1 => &[0],
        2 => &[1],
        3 => &[0, 1],
        _ => &[1, 0],
    }
}

// Compares what a query by chance finds for a snapshot.
fn compare_one(
    rt: &impl Abort,
    alloc: Global,
    brick: &Brick,
    shape: &Shape,
    past: &Past,
    names: &NameLists,
    snapshot: &Snapshot,
    seed: &mut u64,
)
    requires shape { brick.now.home.sizes ≡ shape.now.sizes }
    requires metrics { brick.now.home.metrics ≡ 1 }
{
    let texts = some_texts(alloc, seed).expect(rt, "memory");
    let numbers = some_numbers(alloc, seed).expect(rt, "memory");
    let parts = vec![in alloc; texts, numbers].expect(rt, "memory");
    let group = some_group(seed);
    let query = query(alloc, parts, group, &ASKED).expect(rt, "memory");
    let table = table(rt, alloc, brick, shape, &query, snapshot, names);
    let lines = plain_lines(alloc, past, group, &query.span, snapshot).expect(rt, "memory");
    assert!(rt; agrees(&table, group, lines.as_slice()));
}

// Compares what some snapshots see that are admissible for the epoch of the last purge, and copies.
fn compare(
    rt: &impl Abort,
    alloc: Global,
    brick: &Brick,
    shape: &Shape,
    past: &Past,
    names: &NameLists,
    seed: &mut u64,
)
    requires shape { brick.now.home.sizes ≡ shape.now.sizes }
    requires metrics { brick.now.home.metrics ≡ 1 }
{
    for _ in 0..8 {
        let snapshot = some_snapshot(seed);
        if snapshot.admissible(past.purged) {
            compare_one(rt, alloc, brick, shape, past, names, &snapshot, seed);
        }
    }
    compare_copies(rt, alloc, brick, past);
}

// The brick that the steps make.
fn brick_of(rt: &impl Abort, alloc: Global, shape: &Shape, past: &Past) -> Brick
    ensures { result.home
        ≡ record { sizes = shape.now.sizes; metrics = 1; number = past.now.number } }
{
    let rows = past.rows();
    let mut batch = empty_batch(alloc, 2, rows).expect(rt, "memory");
    put_rows(rt, &mut batch, past.number, rows as u64);
    brick_of_steps(rt, alloc, shape, past.number, &batch, past.steps.as_slice())
}

// One brick: as its steps made it, then with an epoch rolled back, then purged.
fn one_case(
    rt: &impl Abort,
    alloc: Global,
    shape: &Shape,
    names: &NameLists,
    number: u64,
    seed: &mut u64,
) {
    let mut past = Past {
        steps: some_steps(alloc, seed).expect(rt, "memory"),
        number,
        rolled: 0,
        purged: 0,
    };
    let mut brick = brick_of(rt, alloc, shape, &past);
    compare(rt, alloc, &brick, shape, &past, names, seed);
    past.rolled = 1 + next(seed) % 5;
    brick.rollback(past.rolled);
    compare(rt, alloc, &brick, shape, &past, names, seed);
    past.purged = next(seed) % 5;
    brick.purge(past.purged);
    compare(rt, alloc, &brick, shape, &past, names, seed);
}

#[test]
fn bricks_answer_what_a_walk_finds(rt: HostRuntime) {
    let alloc = rt.alloc();
    // Texts below five in ranges of two, and numbers below a thousand in ranges of 600.
    let shape = shape_of(&rt, alloc, "5:2 1000:600");
    let names = names(alloc).expect(&rt, "memory");
    let mut seed = 1;
    for number in 0..6 {
        for _ in 0..50 {
            one_case(&rt, alloc, &shape, &names, number, &mut seed);
        }
    }
}
