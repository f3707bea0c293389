//! Shards and their steps for the tests, and how many rows a reader finds.

ghost use Rattle.std.specs.Prelude.{◌≡◌, All, IfOk};
ghost use Rattle.brick_map.specs.Batches.{IsRowOfCube};
ghost use Rattle.shard_cases.specs.Cases.{IsCaseShard, box_of, case_shape, count_all};

use cube_values::{
    BoundItem, BoundItems, BoundQuery, CallError, CodedRows, Coords, CubeShape, EpochList, Flags,
    Part, Parts, Shape, Size, Sizes, Snapshot, Span,
};
use shard_cell::{Shard, ShardFull};
use std::alloc::{AllocError, Global};
use std::process::Abort;

/// What is done to a shard. The rows of a put have one coordinate, and a box has one.
#[derive(Clone, Copy, Debug)]
pub enum Step {
    Put { epoch: u64, x: u32 },
    Drop { epoch: u64, x: u32 },
    Rollback(u64),
    Purge(u64),
}

/// The shape of the cube.
pub fn case_shape(alloc: Global) -> Result<CubeShape, AllocError>
    ensures { IfOk result (λ made. made ≡ case_shape) }
{
    let size = Size {
        cardinality: 2,
        range: 1,
    };
    Ok(CubeShape {
        shape: Shape {
            sizes: Sizes::from_vec(vec![in alloc; size]?),
        },
        texts: Flags::from_vec(vec![in alloc; true]?),
        metrics: 1,
    })
}

fn box_of(alloc: Global, x: u32) -> Result<Span, AllocError>
    ensures { IfOk result (λ made. made ≡ box_of x) }
{
    Ok(Span {
        parts: Parts::from_vec(vec![in alloc; Part::Between(x, x)]?),
    })
}

fn count_all(alloc: Global) -> Result<BoundQuery, AllocError>
    ensures { IfOk result (λ made. made ≡ count_all) }
{
    Ok(BoundQuery {
        cube: 0,
        span: Span {
            parts: Parts::from_vec(vec![in alloc; Part::All]?),
        },
        group: Coords::new(alloc),
        items: BoundItems::from_vec(vec![in alloc; BoundItem::Count]?),
    })
}

/// So many rows of a coordinate.
fn batch_of(rt: &impl Abort, alloc: Global, x: u32, rows: usize) -> Result<CodedRows, AllocError>
    ensures { IfOk result (λ batch. All (IsRowOfCube case_shape) batch.rows) }
{
    assert!(rt; x < 2);
    let mut batch = CodedRows::new(alloc, 1, 1);
    batch.reserve(rows)?;
    'rows: for _i in 0..rows {
        batch.push(&[x], &[1]);
    }
    Ok(batch)
}

/// Appends so many rows of a coordinate.
pub fn put(
    rt: &impl Abort,
    alloc: Global,
    shard: &mut Shard,
    epoch: u64,
    x: u32,
    rows: usize,
) -> Result<(), CallError<ShardFull>>
    requires { IsCaseShard shard.old }
    ensures { IsCaseShard shard.new }
{
    let shape = case_shape(alloc)?;
    let batch = batch_of(rt, alloc, x, rows)?;
    shard.append(0, &shape, epoch, &batch)
}

fn drop_box(alloc: Global, shard: &mut Shard, epoch: u64, x: u32) -> Result<(), AllocError>
    requires { IsCaseShard shard.old }
    ensures { IsCaseShard shard.new }
{
    let shape = case_shape(alloc)?;
    let span = box_of(alloc, x)?;
    shard.drop_box(0, &shape, epoch, &span)
}

// Takes a step.
fn take_step(
    rt: &impl Abort,
    alloc: Global,
    shard: &mut Shard,
    step: Step,
) -> Result<(), CallError<ShardFull>>
    requires { IsCaseShard shard.old }
    ensures { IsCaseShard shard.new }
{
    match step {
        Step::Put { epoch, x } => put(rt, alloc, shard, epoch, x, 1)?,
        Step::Drop { epoch, x } => drop_box(alloc, shard, epoch, x)?,
        Step::Rollback(epoch) => shard.rollback(epoch),
        Step::Purge(epoch) => shard.purge(epoch),
    }
    Ok(())
}

/// Takes steps one after another.
pub fn take(
    rt: &impl Abort,
    alloc: Global,
    shard: &mut Shard,
    steps: &[Step],
) -> Result<(), CallError<ShardFull>>
    requires { IsCaseShard shard.old }
    ensures { IsCaseShard shard.new }
{
    'steps: for i in 0..steps.len() {
        take_step(rt, alloc, shard, steps[i])?;
    }
    Ok(())
}

/// How many rows of the cube the reader at an epoch finds.
pub fn count(alloc: Global, shard: &Shard, epoch: u64) -> Result<u64, AllocError>
    requires { IsCaseShard shard.now }
{
    let shape = case_shape(alloc)?;
    let query = count_all(alloc)?;
    let reader = Snapshot {
        epoch,
        deps: EpochList::new(),
        own: false,
    };
    let found = shard.scan(&shape, &query, &reader)?;
    Ok(found.rows())
}

/// How many rows came for the reader at one epoch after that at another, and how many went.
pub fn changes(alloc: Global, shard: &Shard, from: u64, to: u64) -> Result<(u64, u64), AllocError>
    requires { IsCaseShard shard.now }
{
    let shape = case_shape(alloc)?;
    let query = count_all(alloc)?;
    let change = shard.delta(&shape, &query, from, to)?;
    Ok((change.came.rows(), change.went.rows()))
}
