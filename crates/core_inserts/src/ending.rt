//! An INSERT that has begun ends.
ghost use Rattle.std.specs.Prelude.{◌≡◌, ◌+◌, ◌<◌, ◌≤◌, List, length};
ghost use Rattle.core_agreements.specs.PostsForOperations.{batches_posted};
ghost use Rattle.core_changes.specs.ChangesUnderWay.{HasBegunWith};
ghost use Rattle.core_inserts.specs.InsertEnds.{
  AnswersAsInsert,
  HasBatch,
  IsInsertText,
  IsPutFailure,
  failure_refusal,
  posted_batches,
};
ghost use Rattle.core_program.specs.CoreFits.{CoreEntry};
ghost use Rattle.cube_values.specs.Batches.{Batch};
ghost use Rattle.inserted_rows.specs.RowsInTheEnd.{IsToldOfCubeAt};
ghost use Rattle.session_snapshots.specs.KnownHolds.{HoldsWriter};
ghost use Rattle.linked_shards.specs.CellShards.{CoreShardStands};
ghost use Rattle.core_changes.specs.ChangeEnds.{IsWriterFor};
ghost use Rattle.posted_pasts.specs.PostsAdded.{AddsAtEpoch, AddsOperations};
ghost use Rattle.scripted_pasts.specs.Served.{IsServed};
ghost use Rattle.session_groups.specs.ShardGroups.{HoldsOpenWriter};
ghost use Rattle.session_replies.specs.Modes.{mode_of};
ghost use Rattle.shard_events.specs.ShardsInRuns.{FitsShard, ShardAnswerSays};
ghost use Rattle.statement_check.specs.OwnParts.{inserted_rows};
ghost use Rattle.turn_board.specs.Passes.{callers_of};

use board_callers::CellCaller;
use core_changes::{fail_change, finish_change};
use core_program::CoreSize;
use core_states::CoreSession;
use cube_journal::{AbortCause, Refusal, Reply};
use cube_language::Statement;
use cube_schema::Schema;
use cube_values::Snapshot;
use linked_shards::ShardCells;
use session_desk::Answered;
use statement_check::inserted_rows;
use std::alloc::Global;
use std::sync::Wait;
use turn_board::Board;

// How many rows an INSERT has.
fn inserted_count(statement: &Statement) -> u64
    ensures { result ≡ length (inserted_rows statement.now) }
{
    inserted_rows(statement).len() as u64
}

/// Ends an INSERT whose rows all shards have, and answers how many there are, and the epoch of its writer. It stops
/// where the round that follows the commit runs out of memory.
pub(crate) fn finish_insert<R: Wait, P: CellCaller<ShardCells>>(
    rt: &R,
    board: &Board<ShardCells>,
    caller: &mut P,
    size: &CoreSize,
    session: &mut CoreSession,
    statement: &Statement,
    place: u32,
    cube: &Schema,
    writer: &Snapshot,
    alloc: Global,
) -> Answered
    requires board { P.calls_on board.now caller.old }
    requires callers { size.now.sessions + 2 + size.now.shards ≤ callers_of board.now }
    requires served { IsServed (P.opening caller.old) (P.number caller.old) session.old.number
        size.now.shards }
    requires writer { IsWriterFor (mode_of session.old.mode) writer.now }
    requires holds { HoldsWriter FitsShard CoreShardStands ShardAnswerSays (P.opening caller.old)
        (P.number caller.old) session.old.number (P.own caller.old) writer.now }
    requires counted { session.old.commits < session.old.statements }
    requires told { IsToldOfCubeAt (P.own caller.old) place cube.now }
    ensures board { P.calls_on board.now caller.new }
    ensures opening { P.opening caller.new ≡ P.opening caller.old }
    ensures number { P.number caller.new ≡ P.number caller.old }
    ensures others { P.others caller.new ≡ P.others caller.old }
    ensures answered { (first : List CoreEntry) (batch : Batch)
        → HasBatch (P.opening caller.old) (P.number caller.old) (P.own caller.old) place cube.now
        statement.now batch
        → HasBegunWith (P.opening caller.old) (P.number caller.old) session.old statement.now first
        (P.own caller.old) (IsInsertText place cube.now statement.now) writer.now
        (AddsOperations place writer.now.epoch (batches_posted
        (posted_batches cube.now size.now.shards place writer.now.epoch batch.rows)))
        → AnswersAsInsert (P.opening caller.old) (P.number caller.old) session.old statement.now first
        (P.own caller.new) place cube.now session.new result }
{
    if finish_change(rt, board, caller, size, session, writer, alloc) {
        let rows = inserted_count(statement);
        let epoch = writer.epoch;
        Answered::Replied(Reply::Stored { rows, epoch })
    } else {
        Answered::Stopped
    }
}

// The refusal of a change that failed so.
fn failure_refusal(cause: AbortCause) -> Refusal
    ensures { result ≡ failure_refusal cause }
{
    match cause {
        AbortCause::ShardFull { shard, rows } => Refusal::ShardFull { shard, rows },
        _ => Refusal::NoMemory,
    }
}

/// Ends an INSERT of which a shard refused its rows, or for which memory ran out once it had begun: what it did is
/// taken back. It stops where there is no memory for that.
pub(crate) fn fail_insert<R: Wait, P: CellCaller<ShardCells>>(
    rt: &R,
    board: &Board<ShardCells>,
    caller: &mut P,
    size: &CoreSize,
    session: &mut CoreSession,
    statement: &Statement,
    place: u32,
    cube: &Schema,
    writer: &Snapshot,
    cause: AbortCause,
    alloc: Global,
) -> Answered
    requires board { P.calls_on board.now caller.old }
    requires callers { size.now.sessions + 2 + size.now.shards ≤ callers_of board.now }
    requires served { IsServed (P.opening caller.old) (P.number caller.old) session.old.number
        size.now.shards }
    requires writer { IsWriterFor (mode_of session.old.mode) writer.now }
    requires holds { HoldsOpenWriter (P.opening caller.old) (P.number caller.old) session.old.number
        (P.own caller.old) writer.now }
    requires counted { session.old.commits < session.old.statements }
    requires cause { IsPutFailure cause }
    ensures board { P.calls_on board.now caller.new }
    ensures opening { P.opening caller.new ≡ P.opening caller.old }
    ensures number { P.number caller.new ≡ P.number caller.old }
    ensures others { P.others caller.new ≡ P.others caller.old }
    ensures answered { (first : List CoreEntry) (batch : Batch)
        → HasBatch (P.opening caller.old) (P.number caller.old) (P.own caller.old) place cube.now
        statement.now batch
        → HasBegunWith (P.opening caller.old) (P.number caller.old) session.old statement.now first
        (P.own caller.old) (IsInsertText place cube.now statement.now) writer.now
        (AddsAtEpoch writer.now.epoch)
        → AnswersAsInsert (P.opening caller.old) (P.number caller.old) session.old statement.now first
        (P.own caller.new) place cube.now session.new result }
{
    if fail_change(rt, board, caller, size, session, writer, cause, alloc) {
        let refusal = failure_refusal(cause);
        Answered::Replied(Reply::Refused { refusal })
    } else {
        Answered::Stopped
    }
}
