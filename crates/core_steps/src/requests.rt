//! A session has all shards purge, and asks for a round.
ghost use Rattle.std.specs.Prelude.{◌+◌, ◌≤◌, IfSome};
ghost use Rattle.core_steps.specs.OnCore.{IsOnCore};
ghost use Rattle.session_snapshots.specs.KnownHolds.{HoldsNothing};
ghost use Rattle.linked_shards.specs.CellShards.{CoreShardStands};
ghost use Rattle.shard_events.specs.ShardsInRuns.{FitsShard, ShardAnswerSays};
ghost use Rattle.turn_board.specs.Passes.{callers_of};

use board_callers::CellCaller;
use core_program::CoreSize;
use cube_core::FlushAnswer;
use linked_shards::ShardCells;
use session_requests::{ask_flush, purge_shards, sessions_know_the_lse_they_saw};
use session_snapshots::read_counters;
use std::alloc::Global;
use std::sync::Wait;
use turn_board::Board;

/// Reads LSE, has each shard purge up to it, and gives it. None: memory ran out.
pub(crate) fn purge_up_to_safe<R: Wait, P: CellCaller<ShardCells>>(
    rt: &R,
    board: &Board<ShardCells>,
    caller: &mut P,
    size: &CoreSize,
    session: u32,
    alloc: Global,
) -> Option<u64>
    requires board { P.calls_on board.now caller.old }
    requires callers { size.now.sessions + 2 + size.now.shards ≤ callers_of board.now }
    requires some { 1 ≤ size.now.shards }
    requires on_core { IsOnCore size.now.shards (P.opening caller.old) (P.number caller.old)
        session }
    requires holds { HoldsNothing FitsShard CoreShardStands ShardAnswerSays (P.opening caller.old)
        (P.number caller.old) session (P.own caller.old) }
    ensures board { P.calls_on board.now caller.new }
    ensures on_core { IsOnCore size.now.shards (P.opening caller.new) (P.number caller.new)
        session }
    ensures holds { HoldsNothing FitsShard CoreShardStands ShardAnswerSays (P.opening caller.new)
        (P.number caller.new) session (P.own caller.new) }
{
    sessions_know_the_lse_they_saw();
    let lse = read_counters(rt, board, caller, session).lse;
    match purge_shards(rt, board, caller, size, session, 0, lse, alloc) {
        Ok(()) => Some(lse),
        Err(_) => None,
    }
}

/// Asks the flusher for a round, and tells how that ended.
pub(crate) fn ask_round<R: Wait, P: CellCaller<ShardCells>>(
    rt: &R,
    board: &Board<ShardCells>,
    caller: &mut P,
    size: &CoreSize,
    session: u32,
) -> FlushAnswer
    requires board { P.calls_on board.now caller.old }
    requires callers { size.now.sessions + 2 + size.now.shards ≤ callers_of board.now }
    requires on_core { IsOnCore size.now.shards (P.opening caller.old) (P.number caller.old)
        session }
    requires holds { HoldsNothing FitsShard CoreShardStands ShardAnswerSays (P.opening caller.old)
        (P.number caller.old) session (P.own caller.old) }
    ensures board { P.calls_on board.now caller.new }
    ensures on_core { IsOnCore size.now.shards (P.opening caller.new) (P.number caller.new)
        session }
    ensures holds { HoldsNothing FitsShard CoreShardStands ShardAnswerSays (P.opening caller.new)
        (P.number caller.new) session (P.own caller.new) }
{
    ask_flush(rt, board, caller, size, session, 0)
}
