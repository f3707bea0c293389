//! FLUSH and PURGE, in whatever mode.
ghost use Rattle.std.specs.Prelude.{◌≡◌, ◌+◌, ◌<◌, ◌≤◌, []};
ghost use Rattle.core_program.specs.Knowing.{IsClientOf, IsMailAt, IsSessionOf, ServesClient};
ghost use Rattle.core_states.specs.ExecutedInCore.{ExecutesInCore, HasOneMore};
ghost use Rattle.core_states.specs.LeftBehind.{GoOnByCalls, IsPlainCall};
ghost use Rattle.core_states.specs.StandingInCore.{HoldsForMode};
ghost use Rattle.cube_journal.specs.declared.note.Note.TheVariants as note;
ghost use Rattle.cube_language.specs.declared.statement.Statement.TheVariants as asked;
ghost use Rattle.cube_run.specs.RunRecords.{Says};
ghost use Rattle.job_groups.specs.AskedEach.{AreShardMails};
ghost use Rattle.linked_shards.specs.CellShards.{CoreShardStands};
ghost use Rattle.session_desk.specs.Executed.{IfReplied, OnStopped};
ghost use Rattle.session_replies.specs.Modes.{mode_of};
ghost use Rattle.session_requests.specs.SessionRequests.{MayNoteOfShards};
ghost use Rattle.shard_events.specs.ShardsInRuns.{FitsShard, ShardAnswerSays};
ghost use Rattle.shard_requests.specs.FlushNotes.{HasNotedFlush};
ghost use Rattle.shard_statements.specs.OverShards.{LeavesOverShards};
ghost use Rattle.turn_board.specs.Passes.{callers_of};

use crate::purges::purge_and_note;
use board_callers::CellCaller;
use core_program::CoreSize;
use core_states::{CoreSession, refuse, refuse_plainly};
use cube_core::FlushAnswer;
use cube_journal::{Note, Refusal, Reply};
use cube_language::MOST_STATEMENTS;
use linked_shards::{CoreShard, ShardCells};
use session_desk::Answered;
use session_requests::{ask_flush, sessions_know_the_lse_they_saw};
use session_snapshots::{leave_note, read_counters};
use std::alloc::Global;
use std::sync::Wait;
use turn_board::Board;

// Notes a FLUSH whose round is done, and tells LSE. Want of memory for the entry is `Stopped`.
fn note_flush<R: Wait, P: CellCaller<ShardCells>>(
    rt: &R,
    board: &Board<ShardCells>,
    caller: &mut P,
    session: &CoreSession,
) -> Answered
    requires board { P.calls_on board.now caller.old }
    requires client { IsClientOf FitsShard CoreShardStands ShardAnswerSays (P.opening caller.old)
        (P.number caller.old) session.now.number }
    requires session { IsSessionOf FitsShard CoreShardStands ShardAnswerSays (P.opening caller.old)
        session.now.number }
    requires holds { HoldsForMode FitsShard CoreShardStands ShardAnswerSays (P.opening caller.old)
        (P.number caller.old) session.now.number (P.own caller.old) (mode_of session.now.mode) }
    requires may { MayNoteOfShards (P.opening caller.old) (P.number caller.old)
        session.now.number (P.own caller.old)
        (note.Flushed session.now.number session.now.statements) }
    ensures board { P.calls_on board.now caller.new }
    ensures opening { P.opening caller.new ≡ P.opening caller.old }
    ensures number { P.number caller.new ≡ P.number caller.old }
    ensures others { P.others caller.new ≡ P.others caller.old }
    ensures holds { HoldsForMode FitsShard CoreShardStands ShardAnswerSays (P.opening caller.new)
        (P.number caller.new) session.now.number (P.own caller.new) (mode_of session.now.mode) }
    ensures noted { IfReplied result (HasNotedFlush (P.number caller.old) session.now.number
        session.now.statements (P.own caller.old) (P.own caller.new)) }
    ensures stopped { OnStopped result (LeavesOverShards (P.opening caller.old)
        (P.number caller.old) session.now.number (P.own caller.old) (P.own caller.new) []) }
{
    let number = session.number;
    let flushed = Note::Flushed {
        session: number,
        statement: session.statements,
    };
    match leave_note::<CoreShard, R, P>(rt, board, caller, number, flushed) {
        Some(counters) => Answered::Replied(Reply::Flushed {
            epoch: counters.lse,
        }),
        None => Answered::Stopped,
    }
}

/// FLUSH: asks the flusher for a round. Once the round is made, want of memory for the entry of the FLUSH is `Stopped`.
pub fn flush<R: Wait, P: CellCaller<ShardCells>>(
    rt: &R,
    board: &Board<ShardCells>,
    caller: &mut P,
    size: &CoreSize,
    session: &mut CoreSession,
) -> Answered
    requires board { P.calls_on board.now caller.old }
    requires callers { size.now.sessions + 2 + size.now.shards ≤ callers_of board.now }
    requires client { IsClientOf FitsShard CoreShardStands ShardAnswerSays (P.opening caller.old)
        (P.number caller.old) session.old.number }
    requires session { IsSessionOf FitsShard CoreShardStands ShardAnswerSays (P.opening caller.old)
        session.old.number }
    requires mail { IsMailAt FitsShard CoreShardStands ShardAnswerSays (P.opening caller.old)
        size.now.shards (2 + size.now.shards + size.now.shards) }
    requires serves { ServesClient FitsShard CoreShardStands ShardAnswerSays (P.opening caller.old)
        session.old.number size.now.shards }
    requires holds { HoldsForMode FitsShard CoreShardStands ShardAnswerSays (P.opening caller.old)
        (P.number caller.old) session.old.number (P.own caller.old) (mode_of session.old.mode) }
    requires few { session.old.statements < MOST_STATEMENTS }
    requires counted { session.old.commits ≤ session.old.statements }
    ensures board { P.calls_on board.now caller.new }
    ensures opening { P.opening caller.new ≡ P.opening caller.old }
    ensures number { P.number caller.new ≡ P.number caller.old }
    ensures others { P.others caller.new ≡ P.others caller.old }
    ensures holds { HoldsForMode FitsShard CoreShardStands ShardAnswerSays (P.opening caller.new)
        (P.number caller.new) session.new.number (P.own caller.new) (mode_of session.new.mode) }
    ensures plain { GoOnByCalls FitsShard CoreShardStands ShardAnswerSays
        (P.opening caller.old) (P.number caller.old) session.old.number IsPlainCall
        (P.own caller.old) (P.own caller.new) }
    ensures more { HasOneMore session.old session.new }
    ensures executed { IfReplied result (ExecutesInCore FitsShard CoreShardStands ShardAnswerSays
        (P.opening caller.old) (P.number caller.old) (Says asked.Flush) session.old
        (P.own caller.old) session.new (P.own caller.new)) }
    ensures stopped { OnStopped result (LeavesOverShards (P.opening caller.old)
        (P.number caller.old) session.old.number (P.own caller.old) (P.own caller.new) []) }
{
    session.statements += 1;
    let number = session.number;
    match ask_flush(rt, board, caller, size, number, session.statements) {
        FlushAnswer::Done => note_flush(rt, board, caller, session),
        FlushAnswer::StoreFailed => {
            refuse::<CoreShard, R, P>(rt, board, caller, session, Refusal::StoreFailed)
        }
        FlushAnswer::NoMemory => {
            refuse_plainly::<CoreShard, R, P>(rt, board, caller, session, Refusal::NoMemory)
        }
    }
}

/// PURGE: has each shard purge up to the latest safe epoch.
pub fn purge<R: Wait, P: CellCaller<ShardCells>>(
    rt: &R,
    board: &Board<ShardCells>,
    caller: &mut P,
    size: &CoreSize,
    session: &mut CoreSession,
    alloc: Global,
) -> Answered
    requires board { P.calls_on board.now caller.old }
    requires callers { size.now.sessions + 2 + size.now.shards ≤ callers_of board.now }
    requires some { 1 ≤ size.now.shards }
    requires client { IsClientOf FitsShard CoreShardStands ShardAnswerSays (P.opening caller.old)
        (P.number caller.old) session.old.number }
    requires session { IsSessionOf FitsShard CoreShardStands ShardAnswerSays (P.opening caller.old)
        session.old.number }
    requires mails { AreShardMails FitsShard CoreShardStands ShardAnswerSays (P.opening caller.old)
        session.old.number size.now.shards (2 + size.now.shards) }
    requires holds { HoldsForMode FitsShard CoreShardStands ShardAnswerSays (P.opening caller.old)
        (P.number caller.old) session.old.number (P.own caller.old) (mode_of session.old.mode) }
    requires few { session.old.statements < MOST_STATEMENTS }
    requires counted { session.old.commits ≤ session.old.statements }
    ensures board { P.calls_on board.now caller.new }
    ensures opening { P.opening caller.new ≡ P.opening caller.old }
    ensures number { P.number caller.new ≡ P.number caller.old }
    ensures others { P.others caller.new ≡ P.others caller.old }
    ensures holds { HoldsForMode FitsShard CoreShardStands ShardAnswerSays (P.opening caller.new)
        (P.number caller.new) session.new.number (P.own caller.new) (mode_of session.new.mode) }
    ensures plain { GoOnByCalls FitsShard CoreShardStands ShardAnswerSays
        (P.opening caller.old) (P.number caller.old) session.old.number IsPlainCall
        (P.own caller.old) (P.own caller.new) }
    ensures more { HasOneMore session.old session.new }
    ensures executed { IfReplied result (ExecutesInCore FitsShard CoreShardStands ShardAnswerSays
        (P.opening caller.old) (P.number caller.old) (Says asked.Purge) session.old
        (P.own caller.old) session.new (P.own caller.new)) }
    ensures stopped { OnStopped result (LeavesOverShards (P.opening caller.old)
        (P.number caller.old) session.old.number (P.own caller.old) (P.own caller.new) []) }
{
    session.statements += 1;
    sessions_know_the_lse_they_saw();
    let number = session.number;
    let statement = session.statements;
    let epoch = read_counters::<CoreShard, R, P>(rt, board, caller, number).lse;
    if purge_and_note(rt, board, caller, size, number, statement, epoch, alloc) {
        Answered::Replied(Reply::Purged { epoch })
    } else {
        refuse_plainly::<CoreShard, R, P>(rt, board, caller, session, Refusal::NoMemory)
    }
}
