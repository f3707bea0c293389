//! The round that follows a commit where one is due: what FLUSH and then PURGE do.
ghost use Rattle.std.specs.Prelude.{◌≡◌, ◌+◌, ◌≤◌, true, Option};
ghost use Rattle.std.specs.Bool.{OnFalse, OnTrue};
ghost use Rattle.core_program.specs.Knowing.{IsClientOf, IsMailAt, IsSessionOf, ServesClient};
ghost use Rattle.cube_journal.specs.declared.note.Note.TheVariants as note;
ghost use Rattle.cube_values.specs.declared.snapshot.Snapshot.{Snapshot};
ghost use Rattle.job_groups.specs.AskedEach.{AreShardMails};
ghost use Rattle.session_snapshots.specs.KnownHolds.{HoldsReady, HoldsTheSame};
ghost use Rattle.linked_shards.specs.CellShards.{CoreShardStands};
ghost use Rattle.session_requests.specs.SessionRequests.{MayNoteOfShards};
ghost use Rattle.shard_events.specs.ShardsInRuns.{FitsShard, ShardAnswerSays};
ghost use Rattle.shard_requests.specs.RoundsAfter.{HasFollowed, HasStoppedInRound};
ghost use Rattle.turn_board.specs.Passes.{callers_of};

use crate::notes::note_refusal;
use crate::purges::purge_and_note;
use board_callers::CellCaller;
use core_program::CoreSize;
use cube_core::FlushAnswer;
use cube_journal::{Note, Refusal};
use linked_shards::{CoreShard, ShardCells};
use session_requests::{ask_flush, sessions_know_the_lse_they_saw};
use session_snapshots::{leave_note, plain_notes_are_allowed};
use std::alloc::Global;
use std::sync::Wait;
use turn_board::Board;

// Notes the round, and purges after it. False where there is no memory for that.
fn note_round<R: Wait, P: CellCaller<ShardCells>>(
    rt: &R,
    board: &Board<ShardCells>,
    caller: &mut P,
    size: &CoreSize,
    session: u32,
    statement: u32,
    alloc: Global,
) -> bool
    requires board { P.calls_on board.now caller.old }
    requires callers { size.now.sessions + 2 + size.now.shards ≤ callers_of board.now }
    requires some { 1 ≤ size.now.shards }
    requires client { IsClientOf FitsShard CoreShardStands ShardAnswerSays (P.opening caller.old)
        (P.number caller.old) session }
    requires session { IsSessionOf FitsShard CoreShardStands ShardAnswerSays (P.opening caller.old)
        session }
    requires mails { AreShardMails FitsShard CoreShardStands ShardAnswerSays (P.opening caller.old)
        session size.now.shards (2 + size.now.shards) }
    requires ready { (held : Option Snapshot) × HoldsReady FitsShard CoreShardStands
        ShardAnswerSays (P.opening caller.old) (P.number caller.old) session (P.own caller.old)
        held }
    requires may { MayNoteOfShards (P.opening caller.old) (P.number caller.old) session
        (P.own caller.old) (note.Flushed session statement) }
    ensures board { P.calls_on board.now caller.new }
    ensures opening { P.opening caller.new ≡ P.opening caller.old }
    ensures number { P.number caller.new ≡ P.number caller.old }
    ensures others { P.others caller.new ≡ P.others caller.old }
    ensures same { HoldsTheSame FitsShard CoreShardStands ShardAnswerSays session
        (P.opening caller.old) (P.number caller.old) (P.own caller.old) (P.opening caller.new)
        (P.number caller.new) (P.own caller.new) }
    ensures followed { OnTrue result (HasFollowed (P.opening caller.old) (P.number caller.old)
        session statement true (P.own caller.old) (P.own caller.new)) }
    ensures stopped { OnFalse result (HasStoppedInRound (P.opening caller.old)
        (P.number caller.old) session statement (P.own caller.old) (P.own caller.new)) }
{
    sessions_know_the_lse_they_saw();
    let flushed = Note::Flushed { session, statement };
    match leave_note::<CoreShard, R, P>(rt, board, caller, session, flushed) {
        Some(counters) => {
            purge_and_note(
                rt,
                board,
                caller,
                size,
                session,
                statement,
                counters.lse,
                alloc,
            )
        }
        None => false,
    }
}

// Asks the flusher for a round, and purges after it. False where the journal has no memory for a note, or there is none
// for the purge.
fn round_after_commit<R: Wait, P: CellCaller<ShardCells>>(
    rt: &R,
    board: &Board<ShardCells>,
    caller: &mut P,
    size: &CoreSize,
    session: u32,
    statement: u32,
    alloc: Global,
) -> bool
    requires board { P.calls_on board.now caller.old }
    requires callers { size.now.sessions + 2 + size.now.shards ≤ callers_of board.now }
    requires some { 1 ≤ size.now.shards }
    requires client { IsClientOf FitsShard CoreShardStands ShardAnswerSays (P.opening caller.old)
        (P.number caller.old) session }
    requires session { IsSessionOf FitsShard CoreShardStands ShardAnswerSays (P.opening caller.old)
        session }
    requires mails { AreShardMails FitsShard CoreShardStands ShardAnswerSays (P.opening caller.old)
        session size.now.shards (2 + size.now.shards) }
    requires mail { IsMailAt FitsShard CoreShardStands ShardAnswerSays (P.opening caller.old)
        size.now.shards (2 + size.now.shards + size.now.shards) }
    requires serves { ServesClient FitsShard CoreShardStands ShardAnswerSays (P.opening caller.old)
        session size.now.shards }
    requires ready { (held : Option Snapshot) × HoldsReady FitsShard CoreShardStands
        ShardAnswerSays (P.opening caller.old) (P.number caller.old) session (P.own caller.old)
        held }
    ensures board { P.calls_on board.now caller.new }
    ensures opening { P.opening caller.new ≡ P.opening caller.old }
    ensures number { P.number caller.new ≡ P.number caller.old }
    ensures others { P.others caller.new ≡ P.others caller.old }
    ensures same { HoldsTheSame FitsShard CoreShardStands ShardAnswerSays session
        (P.opening caller.old) (P.number caller.old) (P.own caller.old) (P.opening caller.new)
        (P.number caller.new) (P.own caller.new) }
    ensures followed { OnTrue result (HasFollowed (P.opening caller.old) (P.number caller.old)
        session statement true (P.own caller.old) (P.own caller.new)) }
    ensures stopped { OnFalse result (HasStoppedInRound (P.opening caller.old)
        (P.number caller.old) session statement (P.own caller.old) (P.own caller.new)) }
{
    match ask_flush(rt, board, caller, size, session, statement) {
        FlushAnswer::Done => note_round(rt, board, caller, size, session, statement, alloc),
        FlushAnswer::StoreFailed => {
            let lost = Refusal::StoreFailed;
            note_refusal(rt, board, caller, session, statement, &lost)
        }
        FlushAnswer::NoMemory => {
            plain_notes_are_allowed::<CoreShard>();
            let refusal = Refusal::NoMemory;
            note_refusal(rt, board, caller, session, statement, &refusal)
        }
    }
}

/// Makes the round that follows a commit where one is due: asks the flusher for it, notes it, and purges after it. False
/// where the journal has no memory for a note, or there is none for the purge.
pub fn follow_commit<R: Wait, P: CellCaller<ShardCells>>(
    rt: &R,
    board: &Board<ShardCells>,
    caller: &mut P,
    size: &CoreSize,
    session: u32,
    statement: u32,
    is_due: bool,
    alloc: Global,
) -> bool
    requires board { P.calls_on board.now caller.old }
    requires callers { size.now.sessions + 2 + size.now.shards ≤ callers_of board.now }
    requires some { 1 ≤ size.now.shards }
    requires client { IsClientOf FitsShard CoreShardStands ShardAnswerSays (P.opening caller.old)
        (P.number caller.old) session }
    requires session { IsSessionOf FitsShard CoreShardStands ShardAnswerSays (P.opening caller.old)
        session }
    requires mails { AreShardMails FitsShard CoreShardStands ShardAnswerSays (P.opening caller.old)
        session size.now.shards (2 + size.now.shards) }
    requires mail { IsMailAt FitsShard CoreShardStands ShardAnswerSays (P.opening caller.old)
        size.now.shards (2 + size.now.shards + size.now.shards) }
    requires serves { ServesClient FitsShard CoreShardStands ShardAnswerSays (P.opening caller.old)
        session size.now.shards }
    requires ready { (held : Option Snapshot) × HoldsReady FitsShard CoreShardStands
        ShardAnswerSays (P.opening caller.old) (P.number caller.old) session (P.own caller.old)
        held }
    ensures board { P.calls_on board.now caller.new }
    ensures opening { P.opening caller.new ≡ P.opening caller.old }
    ensures number { P.number caller.new ≡ P.number caller.old }
    ensures others { P.others caller.new ≡ P.others caller.old }
    ensures same { HoldsTheSame FitsShard CoreShardStands ShardAnswerSays session
        (P.opening caller.old) (P.number caller.old) (P.own caller.old) (P.opening caller.new)
        (P.number caller.new) (P.own caller.new) }
    ensures followed { OnTrue result (HasFollowed (P.opening caller.old) (P.number caller.old)
        session statement is_due (P.own caller.old) (P.own caller.new)) }
    ensures stopped { OnFalse result (HasStoppedInRound (P.opening caller.old)
        (P.number caller.old) session statement (P.own caller.old) (P.own caller.new)) }
{
    if is_due {
        round_after_commit(rt, board, caller, size, session, statement, alloc)
    } else {
        true
    }
}
