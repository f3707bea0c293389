//! The rows of a query, asked of all shards.
ghost use Rattle.std.specs.Prelude.{◌≡◌, ◌+◌, ◌≤◌, IfOk, OnOk, Some};
ghost use Rattle.core_program.specs.Knowing.{IsClientOf, IsSessionOf};
ghost use Rattle.cube_core.specs.declared.shard.ShardCall.TheVariants as call;
ghost use Rattle.job_groups.specs.AskedEach.{AreShardMails};
ghost use Rattle.linked_shards.specs.CellShards.{CoreShardStands};
ghost use Rattle.session_snapshots.specs.KnownHolds.{HoldsReady, HoldsTheSame};
ghost use Rattle.session_groups.specs.ShardGroups.{HasAskedAll, HasFoundRows, KnowsOfShards, MayHaveAsked, MayQuery};
ghost use Rattle.shard_events.specs.ShardsInRuns.{FitsShard, ShardAnswerSays};
ghost use Rattle.turn_board.specs.Passes.{callers_of};

use crate::calls::scan_calls;
use crate::merging::merge_answers;
use agg_fold::Partial;
use board_callers::CellCaller;
use core_program::CoreSize;
use cube_values::{BoundQuery, SharedShape, Snapshot};
use job_groups::ask_each_shard;
use linked_shards::{CoreShard, ShardCells};
use std::alloc::{AllocError, Global};
use std::sync::Wait;
use turn_board::Board;

/// Asks each shard for the rows of a query that the session's snapshot sees, and merges the partials
/// that they answer. It is an error where this session or a shard is out of memory: then either no
/// shard was asked, or all have answered. Whatever the session held, it holds.
pub fn scan_shards<R: Wait, P: CellCaller<ShardCells>>(
    rt: &R,
    board: &Board<ShardCells>,
    caller: &mut P,
    size: &CoreSize,
    session: u32,
    statement: u32,
    shape: &SharedShape,
    query: &BoundQuery,
    snapshot: &Snapshot,
    alloc: Global,
) -> Result<Partial, AllocError>
    requires board { P.calls_on board.now caller.old }
    requires callers { size.now.sessions + 2 + size.now.shards ≤ callers_of board.now }
    requires some { 1 ≤ size.now.shards }
    requires client { IsClientOf FitsShard CoreShardStands ShardAnswerSays (P.opening caller.old)
        (P.number caller.old) session }
    requires session { IsSessionOf FitsShard CoreShardStands ShardAnswerSays (P.opening caller.old)
        session }
    requires mails { AreShardMails FitsShard CoreShardStands ShardAnswerSays (P.opening caller.old)
        session size.now.shards (2 + size.now.shards) }
    requires holds { HoldsReady FitsShard CoreShardStands ShardAnswerSays (P.opening caller.old)
        (P.number caller.old) session (P.own caller.old) (Some snapshot.now) }
    requires query { KnowsOfShards (P.opening caller.old) (P.number caller.old) session
        (P.own caller.old) (MayQuery session shape.now query.now) }
    ensures board { P.calls_on board.now caller.new }
    ensures opening { P.opening caller.new ≡ P.opening caller.old }
    ensures number { P.number caller.new ≡ P.number caller.old }
    ensures others { P.others caller.new ≡ P.others caller.old }
    ensures asked { MayHaveAsked (P.opening caller.old) (P.number caller.old) session
        size.now.shards (call.Scan shape.now query.now snapshot.now) (P.own caller.old)
        (P.own caller.new) }
    ensures holds { HoldsTheSame FitsShard CoreShardStands ShardAnswerSays session
        (P.opening caller.old) (P.number caller.old) (P.own caller.old) (P.opening caller.new)
        (P.number caller.new) (P.own caller.new) }
    ensures all { OnOk result (HasAskedAll (P.opening caller.old) (P.number caller.old) session
        size.now.shards (call.Scan shape.now query.now snapshot.now) (P.own caller.old)
        (P.own caller.new)) }
    ensures found { IfOk result (λ p. KnowsOfShards (P.opening caller.new) (P.number caller.new)
        session (P.own caller.new) (HasFoundRows session query.now snapshot.now p.groups)) }
{
    let calls = scan_calls(alloc, size.shards, shape, query, snapshot)?;
    let room = Vec::with_capacity(alloc, size.shards as usize)?;
    let answers = ask_each_shard::<CoreShard, R, P>(
        rt, board, caller, size, session, statement, calls, room,
    );
    merge_answers(query, answers.as_slice(), alloc)
}
