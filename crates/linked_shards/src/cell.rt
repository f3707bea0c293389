//! A shard as a cell of the core.

ghost use Rattle.shard_events.specs.ShardCalls.{CanCallShard, ShardStep};
ghost use Rattle.shard_events.specs.ShardsInRuns.{FitsShard, ShardAnswerSays};
ghost use Rattle.linked_shards.specs.CellShards.{CanCallCoreShard, CoreShardStep, CoreShardStands, linked-shards};

use core_program::CoreCells;
use cube_core::{AnsweredCall, LinkedShard, ShardAnswer, ShardCall, ShardCell};
use cube_values::{Boxed, CallError};
use shard_cell::Shard;
use std::alloc::AllocError;

/// A shard of a core.
#[derive(Drop)]
pub struct CoreShard {
    pub shard: Shard,
}

/// The desk, the names, the shards and the mails.
pub type ShardCells = CoreCells<CoreShard>;

impl ShardCell for CoreShard {
    ghost can = { CanCallCoreShard };

    ghost step = { CoreShardStep };

    #[inline(always)]
    fn call(&mut self, call: ShardCall) -> AnsweredCall {
        let answer = call_shard(&mut self.shard, &call);
        AnsweredCall::new(answer, call)
    }
}

impl LinkedShard for CoreShard {
    ghost fits = { FitsShard };

    ghost stands = { CoreShardStands };

    ghost says = { ShardAnswerSays };

    ghost linked = { linked-shards };
}

// Makes a call on a shard.
#[inline(always)]
fn call_shard(shard: &mut Shard, call: &ShardCall) -> ShardAnswer
    requires { CanCallShard shard.old call.now }
    ensures { ShardStep shard.old call.now result shard.new }
{
    match call {
        ShardCall::Append {
            cube,
            shape,
            epoch,
            rows,
        } => match shard.append(*cube, shape.shape(), *epoch, rows.get()) {
            Ok(()) => ShardAnswer::Done,
            Err(CallError::Fault(full)) => ShardAnswer::ShardFull { rows: full.rows },
            Err(CallError::NoMemory) => ShardAnswer::NoMemory,
        },
        ShardCall::DropBox {
            cube,
            shape,
            epoch,
            span,
        } => match shard.drop_box(*cube, shape.shape(), *epoch, span) {
            Ok(()) => ShardAnswer::Done,
            Err(AllocError) => ShardAnswer::NoMemory,
        },
        ShardCall::Scan {
            shape,
            query,
            snapshot,
        } => match shard.scan(shape.shape(), query.get(), snapshot.get()) {
            Ok(found) => match Boxed::new(shard.alloc(), found) {
                Ok(found) => ShardAnswer::Scanned(found),
                Err(AllocError) => ShardAnswer::NoMemory,
            },
            Err(AllocError) => ShardAnswer::NoMemory,
        },
        ShardCall::Delta {
            shape,
            query,
            from,
            to,
        } => match shard.delta(shape.shape(), query.get(), *from, *to) {
            Ok(change) => match Boxed::new(shard.alloc(), change) {
                Ok(change) => ShardAnswer::Changed(change),
                Err(AllocError) => ShardAnswer::NoMemory,
            },
            Err(AllocError) => ShardAnswer::NoMemory,
        },
        ShardCall::Rollback { epoch } => {
            shard.rollback(*epoch);
            ShardAnswer::Done
        }
        ShardCall::Purge { epoch } => {
            shard.purge(*epoch);
            ShardAnswer::Done
        }
        ShardCall::CopyRound { from, to } => match shard.copy_round(*from, *to) {
            Ok(copied) => ShardAnswer::Copied(copied),
            Err(AllocError) => ShardAnswer::NoMemory,
        },
    }
}
