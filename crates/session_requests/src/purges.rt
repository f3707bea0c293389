//! A purge on all shards.
ghost use Rattle.std.specs.Prelude.{◌≡◌, ◌+◌, ◌≤◌, OnErr, OnOk, Option};
ghost use Rattle.core_program.specs.Knowing.{IsClientOf, IsSessionOf};
ghost use Rattle.cube_core.specs.declared.shard.ShardCall.TheVariants as call;
ghost use Rattle.cube_values.specs.declared.snapshot.Snapshot.{Snapshot};
ghost use Rattle.job_groups.specs.AskedEach.{AreShardMails};
ghost use Rattle.session_snapshots.specs.KnownHolds.{HoldsReady, HoldsTheSame};
ghost use Rattle.linked_shards.specs.CellShards.{CoreShardStands};
ghost use Rattle.session_groups.specs.ShardGroups.{HasAskedAll};
ghost use Rattle.session_requests.specs.SessionRequests.{KnowsSafe, MayNotePurged, WasShownSafe};
ghost use Rattle.shard_events.specs.ShardsInRuns.{FitsShard, ShardAnswerSays};
ghost use Rattle.turn_board.specs.Passes.{callers_of};

use crate::calls::purge_calls;
use board_callers::CellCaller;
use core_program::CoreSize;
use job_groups::ask_each_shard;
use linked_shards::{CoreShard, ShardCells};
use std::alloc::{AllocError, Global};
use std::sync::Wait;
use turn_board::Board;

/// Has each shard purge up to an epoch that the session was told of as LSE. No shard refuses that, so
/// that the session may note it where the desk has shown just this epoch. Whatever it holds, it then
/// holds the same. It is an error where there is no memory for the calls: then no shard was asked.
pub fn purge_shards<R: Wait, P: CellCaller<ShardCells>>(
    rt: &R,
    board: &Board<ShardCells>,
    caller: &mut P,
    size: &CoreSize,
    session: u32,
    statement: u32,
    epoch: u64,
    alloc: Global,
) -> Result<(), AllocError>
    requires board { P.calls_on board.now caller.old }
    requires callers { size.now.sessions + 2 + size.now.shards ≤ callers_of board.now }
    requires some { 1 ≤ size.now.shards }
    requires client { IsClientOf FitsShard CoreShardStands ShardAnswerSays (P.opening caller.old)
        (P.number caller.old) session }
    requires session { IsSessionOf FitsShard CoreShardStands ShardAnswerSays (P.opening caller.old)
        session }
    requires mails { AreShardMails FitsShard CoreShardStands ShardAnswerSays (P.opening caller.old)
        session size.now.shards (2 + size.now.shards) }
    requires ready { (held : Option Snapshot) × HoldsReady FitsShard CoreShardStands
        ShardAnswerSays (P.opening caller.old) (P.number caller.old) session (P.own caller.old)
        held }
    requires safe { KnowsSafe (P.opening caller.old) (P.number caller.old) session
        (P.own caller.old) epoch }
    ensures board { P.calls_on board.now caller.new }
    ensures opening { P.opening caller.new ≡ P.opening caller.old }
    ensures number { P.number caller.new ≡ P.number caller.old }
    ensures others { P.others caller.new ≡ P.others caller.old }
    ensures asked { OnOk result (HasAskedAll (P.opening caller.old) (P.number caller.old) session
        size.now.shards (call.Purge epoch) (P.own caller.old) (P.own caller.new)) }
    ensures same { HoldsTheSame FitsShard CoreShardStands ShardAnswerSays session
        (P.opening caller.old) (P.number caller.old) (P.own caller.old) (P.opening caller.new)
        (P.number caller.new) (P.own caller.new) }
    ensures notes { OnOk result (WasShownSafe (P.opening caller.old) (P.number caller.old) session
        (P.own caller.old) epoch → MayNotePurged (P.opening caller.new) (P.number caller.new)
        session (P.own caller.new) epoch) }
    ensures err { OnErr result (P.own caller.new ≡ P.own caller.old) }
{
    let calls = purge_calls(alloc, size.shards, epoch)?;
    let room = Vec::with_capacity(alloc, size.shards as usize)?;
    ask_each_shard::<CoreShard, R, P>(rt, board, caller, size, session, statement, calls, room);
    Ok(())
}
