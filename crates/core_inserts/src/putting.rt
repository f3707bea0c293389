//! The rows of an INSERT are put on their shards, by the writer of the change.
ghost use Rattle.std.specs.Prelude.{◌≡◌, ◌+◌, ◌<◌, ◌≤◌, IfNone, IfSome, List};
ghost use Rattle.core_agreements.specs.PostsForOperations.{batches_posted};
ghost use Rattle.core_changes.specs.ChangesUnderWay.{HasBegunWith, HasChangedNothing, MayChange};
ghost use Rattle.core_inserts.specs.InsertEnds.{
  AnswersAsInsert,
  HasBatch,
  IsInsertText,
  IsPutFailure,
  cause_of_put,
  posted_batches,
};
ghost use Rattle.core_program.specs.CoreFits.{CoreEntry};
ghost use Rattle.inserted_rows.specs.RowsInTheEnd.{AreToldRows, IsToldOfCubeAt};
ghost use Rattle.session_snapshots.specs.KnownHolds.{HoldsWriter};
ghost use Rattle.linked_shards.specs.CellShards.{CoreShardStands};
ghost use Rattle.core_changes.specs.CallsOfChanges.{LeavesByJobs};
ghost use Rattle.core_changes.specs.ChangeEnds.{IsWriterFor};
ghost use Rattle.posted_pasts.specs.PostsAdded.{AddsAtEpoch, AddsNoOperation, AddsOperations, LearnsThat};
ghost use Rattle.scripted_pasts.specs.Served.{IsServed};
ghost use Rattle.session_groups.specs.ShardGroups.{HoldsOpenWriter};
ghost use Rattle.session_replies.specs.Modes.{mode_of};
ghost use Rattle.shard_events.specs.ShardsInRuns.{FitsShard, ShardAnswerSays};
ghost use Rattle.turn_board.specs.Passes.{callers_of};

use crate::bound::refuse_bound;
use crate::ending::{fail_insert, finish_insert};
use board_callers::CellCaller;
use core_changes::begin_change;
use core_program::CoreSize;
use core_states::CoreSession;
use cube_journal::{AbortCause, Refusal};
use cube_language::Statement;
use cube_schema::Schema;
use cube_values::{CodedRows, Snapshot};
use inserted_rows::put_told_rows;
use linked_shards::ShardCells;
use session_batches::PutEnd;
use session_desk::Answered;
use std::alloc::Global;
use std::sync::Wait;
use turn_board::Board;

// The cause with which rows that were put end the change, where a shard refused its own.
fn cause_of_put(end: PutEnd) -> Option<AbortCause>
    ensures cause { result ≡ cause_of_put end }
    ensures failure { IfSome result IsPutFailure }
{
    match end {
        PutEnd::Done => None,
        PutEnd::ShardFull { shard, rows } => Some(AbortCause::ShardFull { shard, rows }),
        PutEnd::OutOfMemory { .. } => Some(AbortCause::NoMemory),
    }
}

// Puts rows on their shards, and tells why the change has then failed, None where each shard has its rows. Else the
// writer can only be taken back.
fn failure_of_put<R: Wait, P: CellCaller<ShardCells>>(
    rt: &R,
    board: &Board<ShardCells>,
    caller: &mut P,
    size: &CoreSize,
    session: u32,
    number: u32,
    statement: &Statement,
    place: u32,
    cube: &Schema,
    rows: CodedRows,
    writer: &Snapshot,
    alloc: Global,
) -> Option<AbortCause>
    requires board { P.calls_on board.now caller.old }
    requires callers { size.now.sessions + 2 + size.now.shards ≤ callers_of board.now }
    requires served { IsServed (P.opening caller.old) (P.number caller.old) session
        size.now.shards }
    requires told { IsToldOfCubeAt (P.own caller.old) place cube.now }
    requires rows { AreToldRows (P.own caller.old) place cube.now rows }
    requires holds { HoldsWriter FitsShard CoreShardStands ShardAnswerSays (P.opening caller.old)
        (P.number caller.old) session (P.own caller.old) writer.now }
    ensures board { P.calls_on board.now caller.new }
    ensures opening { P.opening caller.new ≡ P.opening caller.old }
    ensures number { P.number caller.new ≡ P.number caller.old }
    ensures others { P.others caller.new ≡ P.others caller.old }
    ensures left { LeavesByJobs (P.opening caller.old) (P.number caller.old) session number
        statement.now (P.own caller.old) (P.own caller.new) }
    ensures operations { IfNone result (LearnsThat FitsShard CoreShardStands ShardAnswerSays
        (AddsOperations place writer.now.epoch (batches_posted
        (posted_batches cube.now size.now.shards place writer.now.epoch rows.rows)))
        (P.opening caller.old) (P.number caller.old) session (P.own caller.old) (P.own caller.new)) }
    ensures at_epoch { LearnsThat FitsShard CoreShardStands ShardAnswerSays
        (AddsAtEpoch writer.now.epoch) (P.opening caller.old) (P.number caller.old) session
        (P.own caller.old) (P.own caller.new) }
    ensures holds { IfNone result (HoldsWriter FitsShard CoreShardStands ShardAnswerSays
        (P.opening caller.new) (P.number caller.new) session (P.own caller.new) writer.now) }
    ensures open { IfSome result (λ cause. HoldsOpenWriter (P.opening caller.new)
        (P.number caller.new) session (P.own caller.new) writer.now) }
    ensures failure { IfSome result IsPutFailure }
{
    match put_told_rows(
        rt, board, caller, size, session, number, place, cube, rows, writer, alloc,
    ) {
        Ok(end) => cause_of_put(end),
        Err(_) => Some(AbortCause::NoMemory),
    }
}

// Puts rows on their shards by the writer, and ends the change.
fn insert_by<R: Wait, P: CellCaller<ShardCells>>(
    rt: &R,
    board: &Board<ShardCells>,
    caller: &mut P,
    size: &CoreSize,
    session: &mut CoreSession,
    statement: &Statement,
    place: u32,
    cube: &Schema,
    rows: CodedRows,
    writer: &Snapshot,
    alloc: Global,
) -> Answered
    requires board { P.calls_on board.now caller.old }
    requires callers { size.now.sessions + 2 + size.now.shards ≤ callers_of board.now }
    requires served { IsServed (P.opening caller.old) (P.number caller.old) session.old.number
        size.now.shards }
    requires writer { IsWriterFor (mode_of session.old.mode) writer.now }
    requires holds { HoldsWriter FitsShard CoreShardStands ShardAnswerSays (P.opening caller.old)
        (P.number caller.old) session.old.number (P.own caller.old) writer.now }
    requires counted { session.old.commits < session.old.statements }
    requires told { IsToldOfCubeAt (P.own caller.old) place cube.now }
    requires batch { HasBatch (P.opening caller.old) (P.number caller.old) (P.own caller.old) place
        cube.now statement.now rows }
    ensures board { P.calls_on board.now caller.new }
    ensures opening { P.opening caller.new ≡ P.opening caller.old }
    ensures number { P.number caller.new ≡ P.number caller.old }
    ensures others { P.others caller.new ≡ P.others caller.old }
    ensures answered { (first : List CoreEntry)
        → HasBegunWith (P.opening caller.old) (P.number caller.old) session.old statement.now first
        (P.own caller.old) (IsInsertText place cube.now statement.now) writer.now AddsNoOperation
        → AnswersAsInsert (P.opening caller.old) (P.number caller.old) session.old statement.now first
        (P.own caller.new) place cube.now session.new result }
{
    let number = session.number;
    let counted = session.statements;
    match failure_of_put(
        rt, board, caller, size, number, counted, statement, place, cube, rows, writer, alloc,
    ) {
        None => finish_insert(
            rt, board, caller, size, session, statement, place, cube, writer, alloc,
        ),
        Some(cause) => fail_insert(
            rt, board, caller, size, session, statement, place, cube, writer, cause, alloc,
        ),
    }
}

/// Puts the rows of a counted INSERT by a writer of its own, which is committed, or by that of the transaction that is
/// open. It is refused where no writer can be opened for want of memory, and fails where a shard refuses its rows, or
/// memory runs out after that.
pub(crate) fn insert_batch<R: Wait, P: CellCaller<ShardCells>>(
    rt: &R,
    board: &Board<ShardCells>,
    caller: &mut P,
    size: &CoreSize,
    session: &mut CoreSession,
    statement: &Statement,
    place: u32,
    cube: &Schema,
    rows: CodedRows,
    alloc: Global,
) -> Answered
    requires board { P.calls_on board.now caller.old }
    requires callers { size.now.sessions + 2 + size.now.shards ≤ callers_of board.now }
    requires may { MayChange (P.opening caller.old) (P.number caller.old) size.now.shards
        session.old (P.own caller.old) }
    requires told { IsToldOfCubeAt (P.own caller.old) place cube.now }
    requires batch { HasBatch (P.opening caller.old) (P.number caller.old) (P.own caller.old) place
        cube.now statement.now rows }
    ensures board { P.calls_on board.now caller.new }
    ensures opening { P.opening caller.new ≡ P.opening caller.old }
    ensures number { P.number caller.new ≡ P.number caller.old }
    ensures others { P.others caller.new ≡ P.others caller.old }
    ensures answered { (first : List CoreEntry)
        → HasChangedNothing (P.opening caller.old) (P.number caller.old) session.old statement.now
        first (P.own caller.old) (IsInsertText place cube.now statement.now)
        → AnswersAsInsert (P.opening caller.old) (P.number caller.old) session.old statement.now first
        (P.own caller.new) place cube.now session.new result }
{
    match begin_change(rt, board, caller, session) {
        Ok(writer) => insert_by(
            rt, board, caller, size, session, statement, place, cube, rows, &writer, alloc,
        ),
        Err(_) => {
            let refusal = Refusal::NoMemory;
            refuse_bound(
                rt, board, caller, size, session, statement, place, cube, refusal,
            )
        }
    }
}
