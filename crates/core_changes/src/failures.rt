//! A change of rows fails once its writer is open.
ghost use Rattle.std.specs.Prelude.{◌≡◌, ◌+◌, ◌≤◌};
ghost use Rattle.std.specs.Bool.{OnFalse, OnTrue};
ghost use mathlib.Core.List.{IsPrefix};
ghost use Rattle.core_states.specs.LeftBehind.{GoOnByCalls, IsPlainCall};
ghost use Rattle.core_states.specs.StandingInCore.{HoldsForMode};
ghost use Rattle.linked_shards.specs.CellShards.{CoreShardStands};
ghost use Rattle.core_changes.specs.ChangeEnds.{IsWriterFor, failed_entries, failed_mode, failed_session};
ghost use Rattle.scripted_pasts.specs.Served.{IsServed};
ghost use Rattle.session_groups.specs.ShardGroups.{HoldsOpenWriter};
ghost use Rattle.session_replies.specs.Modes.{mode_of};
ghost use Rattle.shard_events.specs.ShardsInRuns.{FitsShard, ShardAnswerSays};
ghost use Rattle.shard_statements.specs.OverShards.{LeavesOverShards};
ghost use Rattle.turn_board.specs.Passes.{callers_of};

use board_callers::CellCaller;
use core_program::CoreSize;
use core_states::CoreSession;
use cube_journal::AbortCause;
use cube_values::Snapshot;
use linked_shards::{CoreShard, ShardCells};
use session_replies::SessionMode;
use shard_statements::take_back;
use std::alloc::Global;
use std::sync::Wait;
use turn_board::Board;

// The mode after a failure.
fn failed_mode(mode: &SessionMode) -> SessionMode
    ensures { result ≡ failed_mode mode.now }
{
    match mode {
        SessionMode::Idle => SessionMode::Idle,
        SessionMode::Open { writer } => SessionMode::Aborted {
            epoch: writer.epoch,
        },
        SessionMode::Aborted { epoch } => SessionMode::Aborted { epoch: *epoch },
    }
}

/// The statement that the session has counted last has failed once its writer was open: each shard takes back what that
/// wrote, and its epoch is ended by the cause. A transaction that was open is then aborted. False where there is no memory
/// for that: then nothing was asked, and the session is as it was.
pub fn fail_change<R: Wait, P: CellCaller<ShardCells>>(
    rt: &R,
    board: &Board<ShardCells>,
    caller: &mut P,
    size: &CoreSize,
    session: &mut CoreSession,
    writer: &Snapshot,
    cause: AbortCause,
    alloc: Global,
) -> bool
    requires board { P.calls_on board.now caller.old }
    requires callers { size.now.sessions + 2 + size.now.shards ≤ callers_of board.now }
    requires served { IsServed (P.opening caller.old) (P.number caller.old) session.old.number
        size.now.shards }
    requires writer { IsWriterFor (mode_of session.old.mode) writer.now }
    requires holds { HoldsOpenWriter (P.opening caller.old) (P.number caller.old) session.old.number
        (P.own caller.old) writer.now }
    ensures board { P.calls_on board.now caller.new }
    ensures opening { P.opening caller.new ≡ P.opening caller.old }
    ensures number { P.number caller.new ≡ P.number caller.old }
    ensures others { P.others caller.new ≡ P.others caller.old }
    ensures more { IsPrefix (P.own caller.old) (P.own caller.new) }
    ensures plain { GoOnByCalls FitsShard CoreShardStands ShardAnswerSays (P.opening caller.old)
        (P.number caller.old) session.old.number IsPlainCall (P.own caller.old) (P.own caller.new) }
    ensures becomes { OnTrue result (session.new ≡ failed_session session.old) }
    ensures holds { OnTrue result (HoldsForMode FitsShard CoreShardStands ShardAnswerSays
        (P.opening caller.new) (P.number caller.new) session.new.number (P.own caller.new)
        (mode_of session.new.mode)) }
    ensures left { OnTrue result (LeavesOverShards (P.opening caller.old) (P.number caller.old)
        session.old.number (P.own caller.old) (P.own caller.new)
        (failed_entries session.old.number session.old.statements writer.now cause)) }
    ensures same { OnFalse result (session.new ≡ session.old) }
    ensures none { OnFalse result (P.own caller.new ≡ P.own caller.old) }
{
    let number = session.number;
    let statement = session.statements;
    match take_back(
        rt, board, caller, size, number, statement, writer, cause, alloc,
    ) {
        Ok(_) => {
            session.mode = failed_mode(&session.mode);
            true
        }
        Err(_) => false,
    }
}
