//! A change of rows begins.
ghost use Rattle.std.specs.Prelude.{◌≡◌, false, [], IfOk, OnErr};
ghost use mathlib.Core.List.{IsPrefix};
ghost use Rattle.core_program.specs.Knowing.{IsClientOf, IsSessionOf};
ghost use Rattle.core_states.specs.LeftBehind.{GoOnByCalls, IsPlainCall};
ghost use Rattle.core_states.specs.StandingInCore.{HoldsForMode};
ghost use Rattle.cube_run.specs.SessionStates.{Idle};
ghost use Rattle.cube_run.specs.StatementEntries.{is_aborted};
ghost use Rattle.session_snapshots.specs.KnownHolds.{HoldsNothing, HoldsWriter};
ghost use Rattle.linked_shards.specs.CellShards.{CoreShardStands};
ghost use Rattle.core_changes.specs.ChangeEnds.{IsWriterFor, begun_entries};
ghost use Rattle.session_replies.specs.Modes.{mode_of};
ghost use Rattle.shard_events.specs.ShardsInRuns.{FitsShard, ShardAnswerSays};
ghost use Rattle.shard_statements.specs.OverShards.{LeavesOverShards};

use board_callers::CellCaller;
use core_states::CoreSession;
use cube_values::Snapshot;
use linked_shards::{CoreShard, ShardCells};
use session_replies::SessionMode;
use session_snapshots::open_writer;
use std::alloc::AllocError;
use std::sync::Wait;
use turn_board::Board;

// Opens a writer for the statement alone.
fn open_own<R: Wait, P: CellCaller<ShardCells>>(
    rt: &R,
    board: &Board<ShardCells>,
    caller: &mut P,
    session: u32,
    statement: u32,
) -> Result<Snapshot, AllocError>
    requires board { P.calls_on board.now caller.old }
    requires client { IsClientOf FitsShard CoreShardStands ShardAnswerSays (P.opening caller.old)
        (P.number caller.old) session }
    requires session { IsSessionOf FitsShard CoreShardStands ShardAnswerSays (P.opening caller.old)
        session }
    requires holds { HoldsNothing FitsShard CoreShardStands ShardAnswerSays (P.opening caller.old)
        (P.number caller.old) session (P.own caller.old) }
    ensures board { P.calls_on board.now caller.new }
    ensures opening { P.opening caller.new ≡ P.opening caller.old }
    ensures number { P.number caller.new ≡ P.number caller.old }
    ensures others { P.others caller.new ≡ P.others caller.old }
    ensures more { IsPrefix (P.own caller.old) (P.own caller.new) }
    ensures plain { GoOnByCalls FitsShard CoreShardStands ShardAnswerSays (P.opening caller.old)
        (P.number caller.old) session IsPlainCall (P.own caller.old) (P.own caller.new) }
    ensures holds { IfOk result (λ writer. HoldsWriter FitsShard CoreShardStands ShardAnswerSays
        (P.opening caller.new) (P.number caller.new) session (P.own caller.new) writer) }
    ensures left { IfOk result (λ writer. LeavesOverShards (P.opening caller.old)
        (P.number caller.old) session (P.own caller.old) (P.own caller.new)
        (begun_entries session statement Idle writer)) }
    ensures kept { OnErr result (HoldsNothing FitsShard CoreShardStands ShardAnswerSays
        (P.opening caller.new) (P.number caller.new) session (P.own caller.new)) }
    ensures none { OnErr result (LeavesOverShards (P.opening caller.old) (P.number caller.old)
        session (P.own caller.old) (P.own caller.new) []) }
{
    match open_writer::<CoreShard, R, P>(rt, board, caller, session, statement) {
        Some(writer) => Ok(writer),
        None => Err(AllocError),
    }
}

/// The writer by which the statement that the session has counted last changes rows: a new one where the session has no
/// transaction, and else that of the transaction that is open. It is an error where the desk is out of memory: then none
/// was opened.
pub fn begin_change<R: Wait, P: CellCaller<ShardCells>>(
    rt: &R,
    board: &Board<ShardCells>,
    caller: &mut P,
    session: &CoreSession,
) -> Result<Snapshot, AllocError>
    requires board { P.calls_on board.now caller.old }
    requires client { IsClientOf FitsShard CoreShardStands ShardAnswerSays (P.opening caller.old)
        (P.number caller.old) session.now.number }
    requires session { IsSessionOf FitsShard CoreShardStands ShardAnswerSays (P.opening caller.old)
        session.now.number }
    requires holds { HoldsForMode FitsShard CoreShardStands ShardAnswerSays (P.opening caller.old)
        (P.number caller.old) session.now.number (P.own caller.old) (mode_of session.now.mode) }
    requires may { is_aborted (mode_of session.now.mode) ≡ false }
    ensures board { P.calls_on board.now caller.new }
    ensures opening { P.opening caller.new ≡ P.opening caller.old }
    ensures number { P.number caller.new ≡ P.number caller.old }
    ensures others { P.others caller.new ≡ P.others caller.old }
    ensures more { IsPrefix (P.own caller.old) (P.own caller.new) }
    ensures plain { GoOnByCalls FitsShard CoreShardStands ShardAnswerSays (P.opening caller.old)
        (P.number caller.old) session.now.number IsPlainCall (P.own caller.old) (P.own caller.new) }
    ensures writer { IfOk result (λ writer. IsWriterFor (mode_of session.now.mode) writer) }
    ensures holds { IfOk result (λ writer. HoldsWriter FitsShard CoreShardStands ShardAnswerSays
        (P.opening caller.new) (P.number caller.new) session.now.number (P.own caller.new) writer) }
    ensures left { IfOk result (λ writer. LeavesOverShards (P.opening caller.old)
        (P.number caller.old) session.now.number (P.own caller.old) (P.own caller.new)
        (begun_entries session.now.number session.now.statements (mode_of session.now.mode)
        writer)) }
    ensures kept { OnErr result (HoldsForMode FitsShard CoreShardStands ShardAnswerSays
        (P.opening caller.new) (P.number caller.new) session.now.number (P.own caller.new)
        (mode_of session.now.mode)) }
    ensures none { OnErr result (LeavesOverShards (P.opening caller.old) (P.number caller.old)
        session.now.number (P.own caller.old) (P.own caller.new) []) }
{
    match &session.mode {
        SessionMode::Idle => open_own(rt, board, caller, session.number, session.statements),
        SessionMode::Open { writer } => Ok(writer.copy()),
        SessionMode::Aborted { .. } => unreachable!(),
    }
}
