//! The calls of a group, one for each shard.
ghost use Rattle.std.specs.Prelude.{◌≡◌, IfOk, replicate};
ghost use Rattle.cube_core.specs.declared.shard.ShardCall.TheVariants as call;

use cube_core::ShardCall;
use cube_values::{BoundQuery, Boxed, BoxedQuery, SharedShape, Snapshot, Span};
use std::alloc::{AllocError, Global};

// A scan of each shard.
pub(crate) fn scan_calls(
    alloc: Global,
    shards: u32,
    shape: &SharedShape,
    query: &BoundQuery,
    snapshot: &Snapshot,
) -> Result<Vec<ShardCall>, AllocError>
    ensures { IfOk result (λ calls. calls.items
        ≡ replicate shards (call.Scan shape.now query.now snapshot.now)) }
{
    let mut calls = Vec::new(alloc);
    'each: for _ in 0..shards {
        calls.push(scan_call(alloc, shape, query, snapshot)?)?;
    }
    Ok(calls)
}

fn scan_call(
    alloc: Global,
    shape: &SharedShape,
    query: &BoundQuery,
    snapshot: &Snapshot,
) -> Result<ShardCall, AllocError>
    ensures { IfOk result (λ c. c ≡ call.Scan shape.now query.now snapshot.now) }
{
    Ok(ShardCall::Scan {
        shape: shape.share()?,
        query: BoxedQuery::new(alloc, query.copy()?)?,
        snapshot: Boxed::new(alloc, snapshot.copy())?,
    })
}

// A deletion of a box on each shard.
pub(crate) fn drop_calls(
    alloc: Global,
    shards: u32,
    cube: u32,
    shape: &SharedShape,
    epoch: u64,
    span: &Span,
) -> Result<Vec<ShardCall>, AllocError>
    ensures { IfOk result (λ calls. calls.items
        ≡ replicate shards (call.DropBox cube shape.now epoch span.now)) }
{
    let mut calls = Vec::new(alloc);
    'each: for _ in 0..shards {
        calls.push(drop_call(cube, shape, epoch, span)?)?;
    }
    Ok(calls)
}

fn drop_call(
    cube: u32,
    shape: &SharedShape,
    epoch: u64,
    span: &Span,
) -> Result<ShardCall, AllocError>
    ensures { IfOk result (λ c. c ≡ call.DropBox cube shape.now epoch span.now) }
{
    Ok(ShardCall::DropBox {
        cube,
        shape: shape.share()?,
        epoch,
        span: span.copy()?,
    })
}

// A rollback on each shard.
pub(crate) fn rollback_calls(
    alloc: Global,
    shards: u32,
    epoch: u64,
) -> Result<Vec<ShardCall>, AllocError>
    ensures { IfOk result (λ calls. calls.items ≡ replicate shards (call.Rollback epoch)) }
{
    let mut calls = Vec::new(alloc);
    'each: for _ in 0..shards {
        calls.push(ShardCall::Rollback { epoch })?;
    }
    Ok(calls)
}
