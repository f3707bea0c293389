//! The calls of a group for a watch, one for each shard.
ghost use Rattle.std.specs.Prelude.{◌≡◌, IfOk, replicate};
ghost use Rattle.core_events.specs.Clients.{reader_up_to};
ghost use Rattle.cube_core.specs.declared.shard.ShardCall.TheVariants as call;

use cube_core::ShardCall;
use cube_values::{BoundQuery, Boxed, BoxedQuery, EpochList, SharedShape, Snapshot};
use std::alloc::{AllocError, Global};

// A scan of each shard, by a reader up to an epoch.
pub(crate) fn scan_calls(
    alloc: Global,
    shards: u32,
    shape: &SharedShape,
    query: &BoundQuery,
    epoch: u64,
) -> Result<Vec<ShardCall>, AllocError>
    ensures { IfOk result (λ calls. calls.items
        ≡ replicate shards (call.Scan shape.now query.now (reader_up_to epoch))) }
{
    let mut calls = Vec::new(alloc);
    'each: for _ in 0..shards {
        calls.push(scan_call(alloc, shape, query, epoch)?)?;
    }
    Ok(calls)
}

fn scan_call(
    alloc: Global,
    shape: &SharedShape,
    query: &BoundQuery,
    epoch: u64,
) -> Result<ShardCall, AllocError>
    ensures { IfOk result (λ c. c ≡ call.Scan shape.now query.now (reader_up_to epoch)) }
{
    Ok(ShardCall::Scan {
        shape: shape.share()?,
        query: BoxedQuery::new(alloc, query.copy()?)?,
        snapshot: Boxed::new(
            alloc,
            Snapshot {
                epoch,
                deps: EpochList::new(),
                own: false,
            },
        )?,
    })
}

// A delta of each shard, from one epoch to another.
pub(crate) fn delta_calls(
    alloc: Global,
    shards: u32,
    shape: &SharedShape,
    query: &BoundQuery,
    from: u64,
    to: u64,
) -> Result<Vec<ShardCall>, AllocError>
    ensures { IfOk result (λ calls. calls.items
        ≡ replicate shards (call.Delta shape.now query.now from to)) }
{
    let mut calls = Vec::new(alloc);
    'each: for _ in 0..shards {
        calls.push(delta_call(alloc, shape, query, from, to)?)?;
    }
    Ok(calls)
}

fn delta_call(
    alloc: Global,
    shape: &SharedShape,
    query: &BoundQuery,
    from: u64,
    to: u64,
) -> Result<ShardCall, AllocError>
    ensures { IfOk result (λ c. c ≡ call.Delta shape.now query.now from to) }
{
    Ok(ShardCall::Delta {
        shape: shape.share()?,
        query: BoxedQuery::new(alloc, query.copy()?)?,
        from,
        to,
    })
}
