//! ROLLBACK, and the end of a script that has a transaction open: all shards take back what the writer wrote,
//! and only then is its epoch ended.
ghost use Rattle.std.specs.Prelude.{◌≡◌, ◌+◌, ◌<◌, ◌≤◌, [], ◌∷◌, None, IfOk, OnErr, OnOk};
ghost use Rattle.core_program.specs.Knowing.{IsClientOf, IsSessionOf};
ghost use Rattle.core_states.specs.ExecutedInCore.{ExecutesInCore, HasOneMore};
ghost use Rattle.core_states.specs.LeftBehind.{GoOnByCalls, IsPlainCall};
ghost use Rattle.core_states.specs.StandingInCore.{HoldsForMode};
ghost use Rattle.cube_journal.specs.declared.journal_entry.JournalEntry.TheVariants as entry;
ghost use Rattle.cube_language.specs.declared.statement.Statement.TheVariants as asked;
ghost use Rattle.cube_run.specs.RunRecords.{Says};
ghost use Rattle.cube_run.specs.StepOutcomes.{refused_by_mode};
ghost use Rattle.job_groups.specs.AskedEach.{AreShardMails};
ghost use Rattle.session_snapshots.specs.KnownHolds.{HoldsNothing};
ghost use Rattle.linked_shards.specs.CellShards.{CoreShardStands};
ghost use Rattle.session_desk.specs.AtDesk.{IsOpen, IsOpenAt};
ghost use Rattle.session_desk.specs.Executed.{IfReplied, OnStopped};
ghost use Rattle.session_groups.specs.ShardGroups.{HoldsOpenWriter};
ghost use Rattle.session_replies.specs.Modes.{mode_of};
ghost use Rattle.shard_events.specs.ShardsInRuns.{FitsShard, ShardAnswerSays};
ghost use Rattle.shard_statements.specs.OverShards.{LeavesOverShards};
ghost use Rattle.turn_board.specs.Passes.{callers_of};

use board_callers::CellCaller;
use core_program::CoreSize;
use core_states::{CoreSession, clear, refuse_plainly};
use cube_journal::{AbortCause, Refusal, Reply};
use cube_language::MOST_STATEMENTS;
use cube_values::Snapshot;
use linked_shards::{CoreShard, ShardCells};
use session_desk::Answered;
use session_groups::roll_back_shards;
use session_replies::SessionMode;
use session_snapshots::end_writer;
use std::alloc::{AllocError, Global};
use std::sync::Wait;
use turn_board::Board;

/// Has each shard take back what a writer wrote, and then ends its epoch, and tells it. It is an error where there is no memory
/// for that: then nothing was asked.
pub fn take_back<R: Wait, P: CellCaller<ShardCells>>(
    rt: &R,
    board: &Board<ShardCells>,
    caller: &mut P,
    size: &CoreSize,
    session: u32,
    statement: u32,
    writer: &Snapshot,
    cause: AbortCause,
    alloc: Global,
) -> Result<u64, AllocError>
    requires board { P.calls_on board.now caller.old }
    requires callers { size.now.sessions + 2 + size.now.shards ≤ callers_of board.now }
    requires some { 1 ≤ size.now.shards }
    requires client { IsClientOf FitsShard CoreShardStands ShardAnswerSays (P.opening caller.old)
        (P.number caller.old) session }
    requires session { IsSessionOf FitsShard CoreShardStands ShardAnswerSays (P.opening caller.old)
        session }
    requires mails { AreShardMails FitsShard CoreShardStands ShardAnswerSays (P.opening caller.old)
        session size.now.shards (2 + size.now.shards) }
    requires holds { HoldsOpenWriter (P.opening caller.old) (P.number caller.old) session
        (P.own caller.old) writer.now }
    ensures board { P.calls_on board.now caller.new }
    ensures opening { P.opening caller.new ≡ P.opening caller.old }
    ensures number { P.number caller.new ≡ P.number caller.old }
    ensures others { P.others caller.new ≡ P.others caller.old }
    ensures holds { OnOk result (HoldsNothing FitsShard CoreShardStands ShardAnswerSays
        (P.opening caller.new) (P.number caller.new) session (P.own caller.new)) }
    ensures epoch { IfOk result (λ epoch. epoch ≡ writer.now.epoch) }
    ensures left { IfOk result (λ epoch. LeavesOverShards (P.opening caller.old)
        (P.number caller.old) session (P.own caller.old) (P.own caller.new)
        (entry.Aborted session statement epoch cause ∷ [])) }
    ensures err { OnErr result (P.own caller.new ≡ P.own caller.old) }
{
    match roll_back_shards(rt, board, caller, size, session, statement, writer, alloc) {
        Ok(()) => {
            end_writer::<CoreShard, R, P>(rt, board, caller, session, statement, cause);
            Ok(writer.epoch)
        }
        Err(_) => Err(AllocError),
    }
}

// Takes back the transaction that is open, and tells its epoch.
fn take_back_open<R: Wait, P: CellCaller<ShardCells>>(
    rt: &R,
    board: &Board<ShardCells>,
    caller: &mut P,
    size: &CoreSize,
    session: &CoreSession,
    cause: AbortCause,
    alloc: Global,
) -> Result<u64, AllocError>
    requires board { P.calls_on board.now caller.old }
    requires callers { size.now.sessions + 2 + size.now.shards ≤ callers_of board.now }
    requires some { 1 ≤ size.now.shards }
    requires client { IsClientOf FitsShard CoreShardStands ShardAnswerSays (P.opening caller.old)
        (P.number caller.old) session.now.number }
    requires session { IsSessionOf FitsShard CoreShardStands ShardAnswerSays (P.opening caller.old)
        session.now.number }
    requires mails { AreShardMails FitsShard CoreShardStands ShardAnswerSays (P.opening caller.old)
        session.now.number size.now.shards (2 + size.now.shards) }
    requires holds { HoldsForMode FitsShard CoreShardStands ShardAnswerSays (P.opening caller.old)
        (P.number caller.old) session.now.number (P.own caller.old) (mode_of session.now.mode) }
    requires open { IsOpen session.now.mode }
    ensures board { P.calls_on board.now caller.new }
    ensures opening { P.opening caller.new ≡ P.opening caller.old }
    ensures number { P.number caller.new ≡ P.number caller.old }
    ensures others { P.others caller.new ≡ P.others caller.old }
    ensures epoch { IfOk result (λ epoch. IsOpenAt session.now.mode epoch) }
    ensures holds { OnOk result (HoldsNothing FitsShard CoreShardStands ShardAnswerSays
        (P.opening caller.new) (P.number caller.new) session.now.number (P.own caller.new)) }
    ensures left { IfOk result (λ epoch. LeavesOverShards (P.opening caller.old)
        (P.number caller.old) session.now.number (P.own caller.old) (P.own caller.new)
        (entry.Aborted session.now.number session.now.statements epoch cause ∷ [])) }
    ensures err { OnErr result (P.own caller.new ≡ P.own caller.old) }
{
    match &session.mode {
        SessionMode::Open { writer } => {
            let number = session.number;
            let statement = session.statements;
            take_back(
                rt, board, caller, size, number, statement, writer, cause, alloc,
            )
        }
        SessionMode::Idle | SessionMode::Aborted { .. } => unreachable!(),
    }
}

// ROLLBACK of the transaction that is open.
fn roll_back_open<R: Wait, P: CellCaller<ShardCells>>(
    rt: &R,
    board: &Board<ShardCells>,
    caller: &mut P,
    size: &CoreSize,
    session: &mut CoreSession,
    alloc: Global,
) -> Answered
    requires board { P.calls_on board.now caller.old }
    requires callers { size.now.sessions + 2 + size.now.shards ≤ callers_of board.now }
    requires some { 1 ≤ size.now.shards }
    requires client { IsClientOf FitsShard CoreShardStands ShardAnswerSays (P.opening caller.old)
        (P.number caller.old) session.old.number }
    requires session { IsSessionOf FitsShard CoreShardStands ShardAnswerSays (P.opening caller.old)
        session.old.number }
    requires mails { AreShardMails FitsShard CoreShardStands ShardAnswerSays (P.opening caller.old)
        session.old.number size.now.shards (2 + size.now.shards) }
    requires holds { HoldsForMode FitsShard CoreShardStands ShardAnswerSays (P.opening caller.old)
        (P.number caller.old) session.old.number (P.own caller.old) (mode_of session.old.mode) }
    requires few { session.old.statements < MOST_STATEMENTS }
    requires counted { session.old.commits ≤ session.old.statements }
    requires open { IsOpen session.old.mode }
    ensures board { P.calls_on board.now caller.new }
    ensures opening { P.opening caller.new ≡ P.opening caller.old }
    ensures number { P.number caller.new ≡ P.number caller.old }
    ensures others { P.others caller.new ≡ P.others caller.old }
    ensures holds { HoldsForMode FitsShard CoreShardStands ShardAnswerSays (P.opening caller.new)
        (P.number caller.new) session.new.number (P.own caller.new) (mode_of session.new.mode) }
    ensures plain { GoOnByCalls FitsShard CoreShardStands ShardAnswerSays
        (P.opening caller.old) (P.number caller.old) session.old.number IsPlainCall
        (P.own caller.old) (P.own caller.new) }
    ensures more { HasOneMore session.old session.new }
    ensures executed { IfReplied result (ExecutesInCore FitsShard CoreShardStands ShardAnswerSays
        (P.opening caller.old) (P.number caller.old) (Says asked.Rollback) session.old (P.own caller.old)
        session.new (P.own caller.new)) }
    ensures stopped { OnStopped result (LeavesOverShards (P.opening caller.old)
        (P.number caller.old) session.old.number (P.own caller.old) (P.own caller.new) []) }
{
    session.statements += 1;
    match take_back_open(rt, board, caller, size, session, AbortCause::Asked, alloc) {
        Ok(epoch) => {
            session.mode = SessionMode::Idle;
            Answered::Replied(Reply::RolledBack { epoch })
        }
        Err(_) => refuse_plainly::<CoreShard, R, P>(rt, board, caller, session, Refusal::NoMemory),
    }
}

/// ROLLBACK: takes back the transaction that is open, or leaves behind the one that a fault ended. Where there is no
/// memory for that it is refused, and the transaction stays.
pub fn rollback<R: Wait, P: CellCaller<ShardCells>>(
    rt: &R,
    board: &Board<ShardCells>,
    caller: &mut P,
    size: &CoreSize,
    session: &mut CoreSession,
    alloc: Global,
) -> Answered
    requires board { P.calls_on board.now caller.old }
    requires callers { size.now.sessions + 2 + size.now.shards ≤ callers_of board.now }
    requires some { 1 ≤ size.now.shards }
    requires client { IsClientOf FitsShard CoreShardStands ShardAnswerSays (P.opening caller.old)
        (P.number caller.old) session.old.number }
    requires session { IsSessionOf FitsShard CoreShardStands ShardAnswerSays (P.opening caller.old)
        session.old.number }
    requires mails { AreShardMails FitsShard CoreShardStands ShardAnswerSays (P.opening caller.old)
        session.old.number size.now.shards (2 + size.now.shards) }
    requires holds { HoldsForMode FitsShard CoreShardStands ShardAnswerSays (P.opening caller.old)
        (P.number caller.old) session.old.number (P.own caller.old) (mode_of session.old.mode) }
    requires few { session.old.statements < MOST_STATEMENTS }
    requires counted { session.old.commits ≤ session.old.statements }
    requires may { refused_by_mode (mode_of session.old.mode) asked.Rollback ≡ None }
    ensures board { P.calls_on board.now caller.new }
    ensures opening { P.opening caller.new ≡ P.opening caller.old }
    ensures number { P.number caller.new ≡ P.number caller.old }
    ensures others { P.others caller.new ≡ P.others caller.old }
    ensures holds { HoldsForMode FitsShard CoreShardStands ShardAnswerSays (P.opening caller.new)
        (P.number caller.new) session.new.number (P.own caller.new) (mode_of session.new.mode) }
    ensures plain { GoOnByCalls FitsShard CoreShardStands ShardAnswerSays
        (P.opening caller.old) (P.number caller.old) session.old.number IsPlainCall
        (P.own caller.old) (P.own caller.new) }
    ensures more { HasOneMore session.old session.new }
    ensures executed { IfReplied result (ExecutesInCore FitsShard CoreShardStands ShardAnswerSays
        (P.opening caller.old) (P.number caller.old) (Says asked.Rollback) session.old (P.own caller.old)
        session.new (P.own caller.new)) }
    ensures stopped { OnStopped result (LeavesOverShards (P.opening caller.old)
        (P.number caller.old) session.old.number (P.own caller.old) (P.own caller.new) []) }
{
    match session.mode {
        SessionMode::Aborted { epoch } => clear::<CoreShard, R, P>(
            rt, board, caller, session, epoch,
        ),
        _ => roll_back_open(rt, board, caller, size, session, alloc),
    }
}
