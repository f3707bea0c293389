//! The end of a script: a transaction that is open is rolled back, and then the reader of a watch is closed.
ghost use Rattle.std.specs.Prelude.{◌≡◌, ◌+◌, ◌≤◌, IfSome, Option, OnErr, OnOk};
ghost use Rattle.core_endings.specs.ScriptEnds.{HoldsReaderUnder, IsWatchUnder};
ghost use Rattle.core_states.specs.LeftBehind.{LeavesBehind};
ghost use Rattle.core_states.specs.StandingInCore.{HoldsForMode};
ghost use Rattle.cube_run.specs.SessionStates.{KeptWatch};
ghost use Rattle.cube_run.specs.StatementEntries.{transaction_end};
ghost use Rattle.session_snapshots.specs.KnownHolds.{HoldsNothing};
ghost use Rattle.linked_shards.specs.CellShards.{CoreShardStands};
ghost use Rattle.scripted_ends.specs.EndedScripts.{EndsScript};
ghost use Rattle.scripted_pasts.specs.Served.{IsServed};
ghost use Rattle.session_replies.specs.Modes.{mode_of};
ghost use Rattle.shard_events.specs.ShardsInRuns.{FitsShard, ShardAnswerSays};
ghost use Rattle.turn_board.specs.Passes.{callers_of};

use board_callers::CellCaller;
use core_program::CoreSize;
use core_states::CoreSession;
use cube_journal::AbortCause;
use cube_language::MOST_STATEMENTS;
use kept_holders::other_calls_leave_the_holders;
use linked_shards::{CoreShard, ShardCells};
use scripted_pasts::quiet_calls_leave_entries;
use session_replies::SessionMode;
use session_watches::close_holder;
use shard_statements::take_back;
use std::alloc::{AllocError, Global};
use std::sync::Wait;
use turn_board::Board;

// Rolls back the transaction that is open, if one is.
fn end_transaction<R: Wait, P: CellCaller<ShardCells>>(
    rt: &R,
    board: &Board<ShardCells>,
    caller: &mut P,
    size: &CoreSize,
    session: &CoreSession,
    statement: u32,
    alloc: Global,
) -> Result<(), AllocError>
    requires board { P.calls_on board.now caller.old }
    requires callers { size.now.sessions + 2 + size.now.shards ≤ callers_of board.now }
    requires served { IsServed (P.opening caller.old) (P.number caller.old) session.now.number
        size.now.shards }
    requires holds { HoldsForMode FitsShard CoreShardStands ShardAnswerSays (P.opening caller.old)
        (P.number caller.old) session.now.number (P.own caller.old) (mode_of session.now.mode) }
    ensures board { P.calls_on board.now caller.new }
    ensures opening { P.opening caller.new ≡ P.opening caller.old }
    ensures number { P.number caller.new ≡ P.number caller.old }
    ensures others { P.others caller.new ≡ P.others caller.old }
    ensures holds { OnOk result (HoldsNothing FitsShard CoreShardStands ShardAnswerSays
        (P.opening caller.new) (P.number caller.new) session.now.number (P.own caller.new)) }
    ensures left { OnOk result (LeavesBehind FitsShard CoreShardStands ShardAnswerSays
        (P.opening caller.old) (P.number caller.old) session.now.number (P.own caller.old)
        (P.own caller.new)
        (transaction_end session.now.number statement (mode_of session.now.mode))) }
    ensures err { OnErr result (P.own caller.new ≡ P.own caller.old) }
{
    match &session.mode {
        SessionMode::Open { writer } => {
            let number = session.number;
            let cause = AbortCause::EndOfScript;
            match take_back(
                rt, board, caller, size, number, statement, writer, cause, alloc,
            ) {
                Ok(_) => Ok(()),
                Err(AllocError) => Err(AllocError),
            }
        }
        SessionMode::Idle | SessionMode::Aborted { .. } => Ok(()),
    }
}

/// Ends a session's script, as one statement more: rolls back the transaction that is open, and closes the reader of the
/// watch that is held under this number. It is an error where there is no memory for a rollback: then nothing was asked.
pub fn end_script<R: Wait, P: CellCaller<ShardCells>>(
    rt: &R,
    board: &Board<ShardCells>,
    caller: &mut P,
    size: &CoreSize,
    session: &CoreSession,
    holder: Option<u32>,
    alloc: Global,
) -> Result<(), AllocError>
    requires board { P.calls_on board.now caller.old }
    requires callers { size.now.sessions + 2 + size.now.shards ≤ callers_of board.now }
    requires served { IsServed (P.opening caller.old) (P.number caller.old) session.now.number
        size.now.shards }
    requires holds { HoldsForMode FitsShard CoreShardStands ShardAnswerSays (P.opening caller.old)
        (P.number caller.old) session.now.number (P.own caller.old) (mode_of session.now.mode) }
    requires reader { IfSome holder (HoldsReaderUnder (P.opening caller.old)
        (P.number caller.old) session.now.number (P.own caller.old)) }
    requires few { session.now.statements ≤ MOST_STATEMENTS }
    ensures board { P.calls_on board.now caller.new }
    ensures opening { P.opening caller.new ≡ P.opening caller.old }
    ensures number { P.number caller.new ≡ P.number caller.old }
    ensures others { P.others caller.new ≡ P.others caller.old }
    ensures ended { OnOk result ((watch : Option KeptWatch) → IsWatchUnder holder watch
        → EndsScript FitsShard CoreShardStands ShardAnswerSays (P.opening caller.old)
        (P.number caller.old) session.now watch (P.own caller.old) (P.own caller.new)) }
    ensures err { OnErr result (P.own caller.new ≡ P.own caller.old) }
{
    quiet_calls_leave_entries::<CoreShard>();
    other_calls_leave_the_holders::<CoreShard>();
    let statement = session.statements + 1;
    end_transaction(rt, board, caller, size, session, statement, alloc)?;
    if let Some(holder) = holder {
        close_holder::<CoreShard, R, P>(rt, board, caller, session.number, holder, statement);
    }
    Ok(())
}
