//! The rows of each shard.
ghost use Rattle.std.specs.Prelude.{◌≡◌, ◌+◌, ◌≤◌, ℕ, List, length, replicate, All, IfOk};
ghost use Rattle.core_program.specs.Flushing.{IsFlusherOf};
ghost use Rattle.cube_core.specs.declared.shard.ShardCall.TheVariants as call;
ghost use Rattle.job_groups.specs.AskedEach.{AreShardMails, HasMore};
ghost use Rattle.linked_shards.specs.CellShards.{CoreShardStands};
ghost use Rattle.round_copies.specs.RoundCopies.{HasOpened, HasRows, IsSoundCopy, IsToldOf, IsWithin, first_epoch};
ghost use Rattle.round_copies.specs.WithinRounds.{KnowsOfFlusher, StaysWithinRound};
ghost use Rattle.shard_events.specs.ShardsInRuns.{FitsShard, ShardAnswerSays};
ghost use Rattle.turn_board.specs.Passes.{callers_of};

use crate::answers::copies_in;
use crate::span::RoundSpan;
use board_callers::CellCaller;
use core_program::CoreSize;
use cube_core::ShardCall;
use cube_rounds::RoundBricks;
use job_groups::ask_each_shard;
use linked_shards::{CoreShard, ShardCells};
use std::alloc::{AllocError, Global};
use std::sync::Wait;
use turn_board::Board;

// A copy of each shard.
fn copy_calls(alloc: Global, shards: u32, span: RoundSpan) -> Result<Vec<ShardCall>, AllocError>
    ensures { IfOk result (λ calls. calls.items
        ≡ replicate shards (call.CopyRound (first_epoch span) span.epoch)) }
{
    let from = span.first_epoch();
    let to = span.epoch;
    let mut calls = Vec::new(alloc);
    'each: for _ in 0..shards {
        calls.push(ShardCall::CopyRound { from, to })?;
    }
    Ok(calls)
}

/// What each shard copies for a round that the flusher has opened. It is an error where this thread or
/// a shard is out of memory: the round is open then, too, and each shard that was asked has answered.
pub(crate) fn copy_rows<R: Wait, P: CellCaller<ShardCells>>(
    rt: &R,
    board: &Board<ShardCells>,
    caller: &mut P,
    size: &CoreSize,
    client: u32,
    span: RoundSpan,
    alloc: Global,
) -> Result<Vec<RoundBricks>, AllocError>
    requires board { P.calls_on board.now caller.old }
    requires callers { size.now.sessions + 2 + size.now.shards ≤ callers_of board.now }
    requires some { 1 ≤ size.now.shards }
    requires flusher { IsFlusherOf FitsShard CoreShardStands ShardAnswerSays
        (P.opening caller.old) (P.number caller.old) client size.now.shards }
    requires mails { AreShardMails FitsShard CoreShardStands ShardAnswerSays (P.opening caller.old)
        client size.now.shards (2 + size.now.shards) }
    requires round { KnowsOfFlusher (P.opening caller.old) (P.number caller.old) client
        (P.own caller.old) (HasOpened span) }
    ensures board { P.calls_on board.now caller.new }
    ensures opening { P.opening caller.new ≡ P.opening caller.old }
    ensures number { P.number caller.new ≡ P.number caller.old }
    ensures others { P.others caller.new ≡ P.others caller.old }
    ensures more { HasMore (P.own caller.old) (P.own caller.new) }
    ensures within { StaysWithinRound (P.opening caller.new) (P.number caller.new) client
        (P.own caller.old) (P.own caller.new) }
    ensures count { IfOk result (λ copies. length copies.items ≡ size.now.shards) }
    ensures copied { IfOk result (λ copies. KnowsOfFlusher (P.opening caller.new)
        (P.number caller.new) client (P.own caller.new) (HasRows span copies.items)) }
    ensures sound { IfOk result (λ copies. All IsSoundCopy copies.items) }
    ensures open { KnowsOfFlusher (P.opening caller.new) (P.number caller.new) client
        (P.own caller.new) (IsWithin span) }
    ensures told { (cubes : ℕ) (counts : List (List ℕ)) → KnowsOfFlusher (P.opening caller.old)
        (P.number caller.old) client (P.own caller.old) (λ o k. IsToldOf cubes counts k)
        → KnowsOfFlusher (P.opening caller.new) (P.number caller.new) client (P.own caller.new)
        (λ o k. IsToldOf cubes counts k) }
{
    let calls = copy_calls(alloc, size.shards, span)?;
    let room = Vec::with_capacity(alloc, size.shards as usize)?;
    let answers = ask_each_shard::<CoreShard, R, P>(
        rt, board, caller, size, client, 0, calls, room,
    );
    copies_in(alloc, answers)
}
