//! What a shard answers, worked out by hand.

ghost use Rattle.std.specs.Prelude.{◌≤◌, IfOk};
ghost use Rattle.shard_cases.specs.Cases.{IsCaseShard};

use crate::making::{Step, changes, count, put, take};
use cube_values::CallError;
use shard_cell::Shard;
use std::alloc::{AllocError, Global};
use std::process::Abort;

fn shard(alloc: Global, limit: u64) -> Result<Shard, AllocError>
    requires { limit ≤ 100 }
    ensures { IfOk result IsCaseShard }
{
    Shard::new(alloc, limit)
}

// Whether the shard refuses so many rows of a coordinate, for it has so many.
fn refuses(
    rt: &impl Abort,
    alloc: Global,
    shard: &mut Shard,
    rows: usize,
    held: u64,
) -> Result<bool, AllocError>
    requires { IsCaseShard shard.old }
    ensures { IsCaseShard shard.new }
{
    match put(rt, alloc, shard, 2, 0, rows) {
        Ok(()) => Ok(false),
        Err(CallError::Fault(full)) => Ok(full.rows == held),
        Err(CallError::NoMemory) => Err(AllocError),
    }
}

#[test]
fn a_full_shard_refuses_what_is_too_much(rt: HostRuntime) -> Result<(), AllocError> {
    let alloc = rt.alloc();
    let mut shard = shard(alloc, 3)?;
    assert!(&rt; !refuses(&rt, alloc, &mut shard, 2, 0)?);
    assert!(&rt; refuses(&rt, alloc, &mut shard, 2, 2)?);
    assert_eq!(&rt; shard.rows(), 2);
    assert!(&rt; !refuses(&rt, alloc, &mut shard, 1, 2)?);
    assert_eq!(&rt; shard.rows(), 3);
    Ok(())
}

// Takes the steps, and looks at how many rows the reader at an epoch finds.
fn check(
    rt: &impl Abort,
    alloc: Global,
    steps: &[Step],
    epoch: u64,
    found: u64,
) -> Result<(), AllocError> {
    let mut shard = shard(alloc, 100)?;
    assert!(rt; take(rt, alloc, &mut shard, steps).is_ok());
    let rows = count(alloc, &shard, epoch)?;
    assert_eq!(rt; rows, found);
    Ok(())
}

fn put_one(epoch: u64, x: u32) -> Step {
    Step::Put { epoch, x }
}

fn drop_one(epoch: u64, x: u32) -> Step {
    Step::Drop { epoch, x }
}

#[test]
fn deletions_wait_for_bricks(rt: HostRuntime) -> Result<(), AllocError> {
    let alloc = rt.alloc();
    let late = [drop_one(2, 0), put_one(1, 0), put_one(3, 0)];
    check(&rt, alloc, &late, 1, 1)?;
    check(&rt, alloc, &late, 2, 0)?;
    check(&rt, alloc, &late, 3, 1)?;
    // The box has another brick alone.
    check(&rt, alloc, &[drop_one(2, 0), put_one(1, 1)], 2, 1)
}

#[test]
fn deletions_that_wait_are_taken_back(rt: HostRuntime) -> Result<(), AllocError> {
    let alloc = rt.alloc();
    let other = [drop_one(2, 0), Step::Rollback(3), put_one(1, 0)];
    check(&rt, alloc, &other, 2, 0)?;
    let same = [drop_one(2, 0), Step::Rollback(2), put_one(1, 0)];
    check(&rt, alloc, &same, 2, 1)?;
    let above = [drop_one(4, 0), Step::Purge(2), put_one(3, 0)];
    check(&rt, alloc, &above, 4, 0)?;
    let passed = [drop_one(2, 0), Step::Purge(2), put_one(3, 0)];
    check(&rt, alloc, &passed, 3, 1)
}

#[test]
fn rows_come_and_go(rt: HostRuntime) -> Result<(), AllocError> {
    let alloc = rt.alloc();
    let mut shard = shard(alloc, 100)?;
    let steps = [
        put_one(1, 0),
        put_one(1, 1),
        drop_one(2, 0),
        put_one(2, 1),
        put_one(2, 1),
    ];
    assert!(&rt; take(&rt, alloc, &mut shard, &steps).is_ok());
    let (came, went) = changes(alloc, &shard, 1, 2)?;
    assert_eq!(&rt; came, 2);
    assert_eq!(&rt; went, 1);
    Ok(())
}
