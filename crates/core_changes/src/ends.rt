//! A change of rows ends.
ghost use Rattle.std.specs.Prelude.{◌≡◌, ◌+◌, ◌<◌, ◌≤◌};
ghost use Rattle.std.specs.Bool.{OnFalse, OnTrue};
ghost use mathlib.Core.List.{IsPrefix};
ghost use Rattle.core_changes.specs.FinishedChanges.{HasFinished};
ghost use Rattle.core_states.specs.LeftBehind.{GoOnByCalls, IsPlainCall};
ghost use Rattle.core_states.specs.StandingInCore.{HoldsForMode};
ghost use Rattle.cube_run.specs.SessionStates.{Idle};
ghost use Rattle.session_snapshots.specs.KnownHolds.{HoldsNothing, HoldsWriter};
ghost use Rattle.linked_shards.specs.CellShards.{CoreShardStands};
ghost use Rattle.core_changes.specs.ChangeEnds.{IsWriterFor, finished_session};
ghost use Rattle.scripted_pasts.specs.Served.{IsServed};
ghost use Rattle.session_replies.specs.Modes.{mode_of};
ghost use Rattle.session_replies.specs.declared.mode.SessionMode.TheVariants as variant;
ghost use Rattle.shard_events.specs.ShardsInRuns.{FitsShard, ShardAnswerSays};
ghost use Rattle.shard_requests.specs.RoundsAfter.{HasStoppedAfterCommit};
ghost use Rattle.turn_board.specs.Passes.{callers_of};

use board_callers::CellCaller;
use core_program::CoreSize;
use core_states::CoreSession;
use cube_values::Snapshot;
use linked_shards::{CoreShard, ShardCells};
use session_replies::{SessionMode, round_follows};
use shard_requests::follow_commit;
use std::alloc::Global;
use std::sync::Wait;
use turn_board::Board;

// Commits a writer of the statement's own, and makes the round that follows where one is due.
fn commit_own<R: Wait, P: CellCaller<ShardCells>>(
    rt: &R,
    board: &Board<ShardCells>,
    caller: &mut P,
    size: &CoreSize,
    session: &mut CoreSession,
    writer: &Snapshot,
    alloc: Global,
) -> bool
    requires board { P.calls_on board.now caller.old }
    requires callers { size.now.sessions + 2 + size.now.shards ≤ callers_of board.now }
    requires served { IsServed (P.opening caller.old) (P.number caller.old) session.old.number
        size.now.shards }
    requires holds { HoldsWriter FitsShard CoreShardStands ShardAnswerSays (P.opening caller.old)
        (P.number caller.old) session.old.number (P.own caller.old) writer.now }
    requires counted { session.old.commits < session.old.statements }
    requires idle { session.old.mode ≡ variant.Idle }
    ensures board { P.calls_on board.now caller.new }
    ensures opening { P.opening caller.new ≡ P.opening caller.old }
    ensures number { P.number caller.new ≡ P.number caller.old }
    ensures others { P.others caller.new ≡ P.others caller.old }
    ensures more { IsPrefix (P.own caller.old) (P.own caller.new) }
    ensures plain { GoOnByCalls FitsShard CoreShardStands ShardAnswerSays (P.opening caller.old)
        (P.number caller.old) session.old.number IsPlainCall (P.own caller.old) (P.own caller.new) }
    ensures becomes { session.new ≡ finished_session session.old }
    ensures holds { HoldsNothing FitsShard CoreShardStands ShardAnswerSays (P.opening caller.new)
        (P.number caller.new) session.old.number (P.own caller.new) }
    ensures finished { OnTrue result (HasFinished (P.opening caller.old) (P.number caller.old)
        session.old writer.now (P.own caller.old) (P.own caller.new)) }
    ensures stopped { OnFalse result (HasStoppedAfterCommit (P.opening caller.old)
        (P.number caller.old) session.old.number session.old.statements writer.now.epoch
        (P.own caller.old) (P.own caller.new)) }
{
    let number = session.number;
    let statement = session.statements;
    session_snapshots::commit::<CoreShard, R, P>(rt, board, caller, number, statement);
    let is_due = round_follows(session.round_every, session.commits);
    session.commits += 1;
    follow_commit(rt, board, caller, size, number, statement, is_due, alloc)
}

/// The statement that the session has counted last has changed rows by its writer. One of its own is committed, and a round
/// follows where one is due; the transaction that is open stays so. False where that round stopped for want of memory: the
/// change is committed.
pub fn finish_change<R: Wait, P: CellCaller<ShardCells>>(
    rt: &R,
    board: &Board<ShardCells>,
    caller: &mut P,
    size: &CoreSize,
    session: &mut CoreSession,
    writer: &Snapshot,
    alloc: Global,
) -> bool
    requires board { P.calls_on board.now caller.old }
    requires callers { size.now.sessions + 2 + size.now.shards ≤ callers_of board.now }
    requires served { IsServed (P.opening caller.old) (P.number caller.old) session.old.number
        size.now.shards }
    requires writer { IsWriterFor (mode_of session.old.mode) writer.now }
    requires holds { HoldsWriter FitsShard CoreShardStands ShardAnswerSays (P.opening caller.old)
        (P.number caller.old) session.old.number (P.own caller.old) writer.now }
    requires counted { session.old.commits < session.old.statements }
    ensures board { P.calls_on board.now caller.new }
    ensures opening { P.opening caller.new ≡ P.opening caller.old }
    ensures number { P.number caller.new ≡ P.number caller.old }
    ensures others { P.others caller.new ≡ P.others caller.old }
    ensures more { IsPrefix (P.own caller.old) (P.own caller.new) }
    ensures plain { GoOnByCalls FitsShard CoreShardStands ShardAnswerSays (P.opening caller.old)
        (P.number caller.old) session.old.number IsPlainCall (P.own caller.old) (P.own caller.new) }
    ensures becomes { session.new ≡ finished_session session.old }
    ensures holds { HoldsForMode FitsShard CoreShardStands ShardAnswerSays (P.opening caller.new)
        (P.number caller.new) session.new.number (P.own caller.new) (mode_of session.new.mode) }
    ensures finished { OnTrue result (HasFinished (P.opening caller.old) (P.number caller.old)
        session.old writer.now (P.own caller.old) (P.own caller.new)) }
    ensures idle { OnFalse result (mode_of session.old.mode ≡ Idle) }
    ensures stopped { OnFalse result (HasStoppedAfterCommit (P.opening caller.old)
        (P.number caller.old) session.old.number session.old.statements writer.now.epoch
        (P.own caller.old) (P.own caller.new)) }
{
    match &session.mode {
        SessionMode::Open { .. } => true,
        SessionMode::Idle => commit_own(rt, board, caller, size, session, writer, alloc),
        SessionMode::Aborted { .. } => unreachable!(),
    }
}
