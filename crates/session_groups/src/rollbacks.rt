//! A rollback on all shards.
ghost use Rattle.std.specs.Prelude.{◌≡◌, ◌+◌, ◌≤◌, OnErr, OnOk};
ghost use Rattle.core_program.specs.Knowing.{IsClientOf, IsSessionOf};
ghost use Rattle.cube_core.specs.declared.shard.ShardCall.TheVariants as call;
ghost use Rattle.job_groups.specs.AskedEach.{AreShardMails};
ghost use Rattle.linked_shards.specs.CellShards.{CoreShardStands};
ghost use Rattle.session_snapshots.specs.KnownHolds.{HoldsRolledBack};
ghost use Rattle.session_groups.specs.ShardGroups.{HasAskedAll, HoldsOpenWriter};
ghost use Rattle.shard_events.specs.ShardsInRuns.{FitsShard, ShardAnswerSays};
ghost use Rattle.turn_board.specs.Passes.{callers_of};

use crate::calls::rollback_calls;
use board_callers::CellCaller;
use core_program::CoreSize;
use cube_values::Snapshot;
use job_groups::ask_each_shard;
use linked_shards::{CoreShard, ShardCells};
use std::alloc::{AllocError, Global};
use std::sync::Wait;
use turn_board::Board;

/// Has each shard take back what the session's writer wrote. No shard refuses that. It is an error
/// where there is no memory for the calls: then no shard was asked.
pub fn roll_back_shards<R: Wait, P: CellCaller<ShardCells>>(
    rt: &R,
    board: &Board<ShardCells>,
    caller: &mut P,
    size: &CoreSize,
    session: u32,
    statement: u32,
    writer: &Snapshot,
    alloc: Global,
) -> Result<(), AllocError>
    requires board { P.calls_on board.now caller.old }
    requires callers { size.now.sessions + 2 + size.now.shards ≤ callers_of board.now }
    requires some { 1 ≤ size.now.shards }
    requires client { IsClientOf FitsShard CoreShardStands ShardAnswerSays (P.opening caller.old)
        (P.number caller.old) session }
    requires session { IsSessionOf FitsShard CoreShardStands ShardAnswerSays (P.opening caller.old)
        session }
    requires mails { AreShardMails FitsShard CoreShardStands ShardAnswerSays (P.opening caller.old)
        session size.now.shards (2 + size.now.shards) }
    requires holds { HoldsOpenWriter (P.opening caller.old) (P.number caller.old) session
        (P.own caller.old) writer.now }
    ensures board { P.calls_on board.now caller.new }
    ensures opening { P.opening caller.new ≡ P.opening caller.old }
    ensures number { P.number caller.new ≡ P.number caller.old }
    ensures others { P.others caller.new ≡ P.others caller.old }
    ensures asked { OnOk result (HasAskedAll (P.opening caller.old) (P.number caller.old) session
        size.now.shards (call.Rollback writer.now.epoch) (P.own caller.old) (P.own caller.new)) }
    ensures holds { OnOk result (HoldsRolledBack FitsShard CoreShardStands ShardAnswerSays
        (P.opening caller.new) (P.number caller.new) session (P.own caller.new) writer.now) }
    ensures err { OnErr result (P.own caller.new ≡ P.own caller.old) }
{
    let calls = rollback_calls(alloc, size.shards, writer.epoch)?;
    let room = Vec::with_capacity(alloc, size.shards as usize)?;
    ask_each_shard::<CoreShard, R, P>(rt, board, caller, size, session, statement, calls, room);
    Ok(())
}
