//! A session begins a transaction and ends it.
ghost use Rattle.std.specs.Prelude.{◌≡◌, ◌+◌, ◌≤◌, IfSome};
ghost use Rattle.core_steps.specs.OnCore.{IsOnCore};
ghost use Rattle.job_groups.specs.AskedEach.{HasMore};
ghost use Rattle.session_snapshots.specs.KnownHolds.{HoldsNothing, HoldsWriter};
ghost use Rattle.linked_shards.specs.CellShards.{CoreShardStands};
ghost use Rattle.shard_events.specs.ShardsInRuns.{FitsShard, ShardAnswerSays};
ghost use Rattle.turn_board.specs.Passes.{callers_of};

use board_callers::CellCaller;
use core_program::CoreSize;
use cube_journal::AbortCause;
use cube_values::Snapshot;
use linked_shards::ShardCells;
use session_groups::roll_back_shards;
use session_snapshots::{commit, end_writer, open_writer};
use std::alloc::Global;
use std::sync::Wait;
use turn_board::Board;

/// Opens a writer. None: the desk was out of memory.
pub(crate) fn begin<R: Wait, P: CellCaller<ShardCells>>(
    rt: &R,
    board: &Board<ShardCells>,
    caller: &mut P,
    size: &CoreSize,
    session: u32,
) -> Option<Snapshot>
    requires board { P.calls_on board.now caller.old }
    requires on_core { IsOnCore size.now.shards (P.opening caller.old) (P.number caller.old)
        session }
    requires holds { HoldsNothing FitsShard CoreShardStands ShardAnswerSays (P.opening caller.old)
        (P.number caller.old) session (P.own caller.old) }
    ensures board { P.calls_on board.now caller.new }
    ensures on_core { IsOnCore size.now.shards (P.opening caller.new) (P.number caller.new)
        session }
    ensures opening { P.opening caller.new ≡ P.opening caller.old }
    ensures number { P.number caller.new ≡ P.number caller.old }
    ensures more { HasMore (P.own caller.old) (P.own caller.new) }
    ensures holds { IfSome result (HoldsWriter FitsShard CoreShardStands ShardAnswerSays
        (P.opening caller.new) (P.number caller.new) session (P.own caller.new)) }
{
    open_writer(rt, board, caller, session, 0)
}

/// Commits the writer.
pub(crate) fn commit_writer<R: Wait, P: CellCaller<ShardCells>>(
    rt: &R,
    board: &Board<ShardCells>,
    caller: &mut P,
    size: &CoreSize,
    session: u32,
    writer: Snapshot,
) -> u64
    requires board { P.calls_on board.now caller.old }
    requires on_core { IsOnCore size.now.shards (P.opening caller.old) (P.number caller.old)
        session }
    requires holds { HoldsWriter FitsShard CoreShardStands ShardAnswerSays (P.opening caller.old)
        (P.number caller.old) session (P.own caller.old) writer }
    ensures board { P.calls_on board.now caller.new }
    ensures on_core { IsOnCore size.now.shards (P.opening caller.new) (P.number caller.new)
        session }
    ensures holds { HoldsNothing FitsShard CoreShardStands ShardAnswerSays (P.opening caller.new)
        (P.number caller.new) session (P.own caller.new) }
    ensures epoch { result ≡ writer.epoch }
{
    commit(rt, board, caller, session, 0);
    writer.epoch
}

/// Rolls the writer back on every shard, and ends it. None: memory ran out.
pub(crate) fn roll_back<R: Wait, P: CellCaller<ShardCells>>(
    rt: &R,
    board: &Board<ShardCells>,
    caller: &mut P,
    size: &CoreSize,
    session: u32,
    writer: Snapshot,
    alloc: Global,
) -> Option<u64>
    requires board { P.calls_on board.now caller.old }
    requires callers { size.now.sessions + 2 + size.now.shards ≤ callers_of board.now }
    requires some { 1 ≤ size.now.shards }
    requires on_core { IsOnCore size.now.shards (P.opening caller.old) (P.number caller.old)
        session }
    requires holds { HoldsWriter FitsShard CoreShardStands ShardAnswerSays (P.opening caller.old)
        (P.number caller.old) session (P.own caller.old) writer }
    ensures board { P.calls_on board.now caller.new }
    ensures on_core { IsOnCore size.now.shards (P.opening caller.new) (P.number caller.new)
        session }
    ensures holds { IfSome result (λ _. HoldsNothing FitsShard CoreShardStands ShardAnswerSays
        (P.opening caller.new) (P.number caller.new) session (P.own caller.new)) }
    ensures epoch { IfSome result (λ epoch. epoch ≡ writer.epoch) }
{
    match roll_back_shards(rt, board, caller, size, session, 0, &writer, alloc) {
        Ok(()) => {
            end_writer(rt, board, caller, session, 0, AbortCause::Asked);
            Some(writer.epoch)
        }
        Err(_) => None,
    }
}
