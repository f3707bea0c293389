//! COMMIT, and the round that follows it.
ghost use Rattle.std.specs.Prelude.{◌≡◌, ◌+◌, ◌<◌, ◌≤◌, ℕ, None};
ghost use Rattle.core_program.specs.Knowing.{IsClientOf, IsMailAt, IsSessionOf, ServesClient};
ghost use Rattle.core_states.specs.ExecutedInCore.{ExecutesInCore, HasOneMore};
ghost use Rattle.core_states.specs.LeftBehind.{GoOnByCalls, IsPlainCall};
ghost use Rattle.core_states.specs.StandingInCore.{HoldsForMode};
ghost use Rattle.cube_language.specs.declared.statement.Statement.TheVariants as asked;
ghost use Rattle.cube_run.specs.RunRecords.{Says};
ghost use Rattle.cube_run.specs.StepOutcomes.{refused_by_mode};
ghost use Rattle.job_groups.specs.AskedEach.{AreShardMails};
ghost use Rattle.linked_shards.specs.CellShards.{CoreShardStands};
ghost use Rattle.session_desk.specs.AtDesk.{IsOpen, IsOpenAt};
ghost use Rattle.session_desk.specs.Executed.{IfReplied, OnStopped};
ghost use Rattle.session_replies.specs.Modes.{mode_of};
ghost use Rattle.shard_events.specs.ShardsInRuns.{FitsShard, ShardAnswerSays};
ghost use Rattle.shard_requests.specs.RoundsAfter.{HasStoppedAfterCommit};
ghost use Rattle.turn_board.specs.Passes.{callers_of};

use crate::rounds::follow_commit;
use board_callers::CellCaller;
use core_program::CoreSize;
use core_states::CoreSession;
use cube_journal::Reply;
use cube_language::MOST_STATEMENTS;
use linked_shards::{CoreShard, ShardCells};
use session_desk::Answered;
use session_replies::{SessionMode, round_follows};
use std::alloc::Global;
use std::sync::Wait;
use turn_board::Board;

// The epoch of the transaction that is open.
fn open_epoch(mode: &SessionMode) -> u64
    requires { IsOpen mode.now }
    ensures { IsOpenAt mode.now result }
{
    match mode {
        SessionMode::Open { writer } => writer.epoch,
        SessionMode::Idle | SessionMode::Aborted { .. } => unreachable!(),
    }
}

/// COMMIT: ends the writer of the transaction that is open. A round follows where one is due; where that stops for want
/// of memory, the transaction is committed.
pub fn commit<R: Wait, P: CellCaller<ShardCells>>(
    rt: &R,
    board: &Board<ShardCells>,
    caller: &mut P,
    size: &CoreSize,
    session: &mut CoreSession,
    alloc: Global,
) -> Answered
    requires board { P.calls_on board.now caller.old }
    requires callers { size.now.sessions + 2 + size.now.shards ≤ callers_of board.now }
    requires some { 1 ≤ size.now.shards }
    requires client { IsClientOf FitsShard CoreShardStands ShardAnswerSays (P.opening caller.old)
        (P.number caller.old) session.old.number }
    requires session { IsSessionOf FitsShard CoreShardStands ShardAnswerSays (P.opening caller.old)
        session.old.number }
    requires mails { AreShardMails FitsShard CoreShardStands ShardAnswerSays (P.opening caller.old)
        session.old.number size.now.shards (2 + size.now.shards) }
    requires mail { IsMailAt FitsShard CoreShardStands ShardAnswerSays (P.opening caller.old)
        size.now.shards (2 + size.now.shards + size.now.shards) }
    requires serves { ServesClient FitsShard CoreShardStands ShardAnswerSays (P.opening caller.old)
        session.old.number size.now.shards }
    requires holds { HoldsForMode FitsShard CoreShardStands ShardAnswerSays (P.opening caller.old)
        (P.number caller.old) session.old.number (P.own caller.old) (mode_of session.old.mode) }
    requires few { session.old.statements < MOST_STATEMENTS }
    requires counted { session.old.commits ≤ session.old.statements }
    requires may { refused_by_mode (mode_of session.old.mode) asked.Commit ≡ None }
    ensures board { P.calls_on board.now caller.new }
    ensures opening { P.opening caller.new ≡ P.opening caller.old }
    ensures number { P.number caller.new ≡ P.number caller.old }
    ensures others { P.others caller.new ≡ P.others caller.old }
    ensures holds { HoldsForMode FitsShard CoreShardStands ShardAnswerSays (P.opening caller.new)
        (P.number caller.new) session.new.number (P.own caller.new) (mode_of session.new.mode) }
    ensures plain { GoOnByCalls FitsShard CoreShardStands ShardAnswerSays
        (P.opening caller.old) (P.number caller.old) session.old.number IsPlainCall
        (P.own caller.old) (P.own caller.new) }
    ensures more { HasOneMore session.old session.new }
    ensures executed { IfReplied result (ExecutesInCore FitsShard CoreShardStands ShardAnswerSays
        (P.opening caller.old) (P.number caller.old) (Says asked.Commit) session.old
        (P.own caller.old) session.new (P.own caller.new)) }
    ensures stopped { OnStopped result ((epoch : ℕ) × IsOpenAt session.old.mode epoch
        × HasStoppedAfterCommit (P.opening caller.old) (P.number caller.old) session.old.number
        session.new.statements epoch (P.own caller.old) (P.own caller.new)) }
{
    let epoch = open_epoch(&session.mode);
    session.statements += 1;
    let number = session.number;
    let statement = session.statements;
    session_snapshots::commit::<CoreShard, R, P>(rt, board, caller, number, statement);
    let is_due = round_follows(session.round_every, session.commits);
    session.commits += 1;
    session.mode = SessionMode::Idle;
    if follow_commit(rt, board, caller, size, number, statement, is_due, alloc) {
        Answered::Replied(Reply::Committed { epoch })
    } else {
        Answered::Stopped
    }
}
