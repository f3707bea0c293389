//! The calls of a purge, one for each shard.
ghost use Rattle.std.specs.Prelude.{◌≡◌, IfOk, replicate};
ghost use Rattle.cube_core.specs.declared.shard.ShardCall.TheVariants as call;

use cube_core::ShardCall;
use std::alloc::{AllocError, Global};

// A purge of each shard.
pub(crate) fn purge_calls(
    alloc: Global,
    shards: u32,
    epoch: u64,
) -> Result<Vec<ShardCall>, AllocError>
    ensures { IfOk result (λ calls. calls.items ≡ replicate shards (call.Purge epoch)) }
{
    let mut calls = Vec::new(alloc);
    'each: for _ in 0..shards {
        calls.push(ShardCall::Purge { epoch })?;
    }
    Ok(calls)
}
