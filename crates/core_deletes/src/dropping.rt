//! The box of a DELETE is dropped on every shard, by the writer of the change.
ghost use Rattle.std.specs.Prelude.{◌≡◌, ◌+◌, ◌<◌, ◌≤◌, [], ◌∷◌, List};
ghost use Rattle.std.specs.Bool.{OnFalse, OnTrue};
ghost use Rattle.core_changes.specs.ChangesUnderWay.{HasBegunWith, HasChangedNothing, MayChange};
ghost use Rattle.core_deletes.specs.DeleteEnds.{AnswersAsDelete, is_done};
ghost use Rattle.core_events.specs.Serial.{DropRows};
ghost use Rattle.core_program.specs.CoreFits.{CoreEntry};
ghost use Rattle.dropped_regions.specs.DeleteBoxes.{IsBoxOf, IsDeleteText, IsToldOfPlace, IsWholeBox};
ghost use Rattle.session_snapshots.specs.KnownHolds.{HoldsWriter};
ghost use Rattle.linked_shards.specs.CellShards.{CoreShardStands};
ghost use Rattle.shard_events.specs.ShardsInRuns.{FitsShard, ShardAnswerSays};
ghost use Rattle.core_changes.specs.CallsOfChanges.{LeavesByJobs};
ghost use Rattle.core_changes.specs.ChangeEnds.{IsWriterFor};
ghost use Rattle.posted_pasts.specs.PostsAdded.{AddsAtEpoch, AddsNoOperation, AddsOperations, LearnsThat};
ghost use Rattle.scripted_pasts.specs.Served.{IsServed};
ghost use Rattle.session_groups.specs.ShardGroups.{HoldsOpenWriter};
ghost use Rattle.session_replies.specs.Modes.{mode_of};
ghost use Rattle.turn_board.specs.Passes.{callers_of};

use crate::bound::refuse_delete;
use crate::ending::{fail_delete, finish_delete};
use board_callers::CellCaller;
use core_changes::begin_change;
use core_program::CoreSize;
use core_states::CoreSession;
use cube_journal::Refusal;
use cube_language::Statement;
use cube_schema::Schema;
use cube_values::{Snapshot, Span};
use dropped_regions::drop_region;
use linked_shards::ShardCells;
use session_desk::Answered;
use session_groups::WriteEnd;
use std::alloc::Global;
use std::sync::Wait;
use turn_board::Board;

// Whether each shard has done what it was asked for.
fn is_done(end: WriteEnd) -> bool
    ensures { result ≡ is_done end }
{
    match end {
        WriteEnd::Done => true,
        WriteEnd::Refused => false,
    }
}

// Whether every shard has dropped the box. Else the writer can only be taken back.
fn has_dropped<R: Wait, P: CellCaller<ShardCells>>(
    rt: &R,
    board: &Board<ShardCells>,
    caller: &mut P,
    size: &CoreSize,
    session: u32,
    number: u32,
    statement: &Statement,
    place: u32,
    cube: &Schema,
    span: &Span,
    writer: &Snapshot,
    alloc: Global,
) -> bool
    requires board { P.calls_on board.now caller.old }
    requires callers { size.now.sessions + 2 + size.now.shards ≤ callers_of board.now }
    requires served { IsServed (P.opening caller.old) (P.number caller.old) session
        size.now.shards }
    requires told { IsToldOfPlace (P.own caller.old) place cube.now }
    requires whole { IsWholeBox cube.now span.now }
    requires holds { HoldsWriter FitsShard CoreShardStands ShardAnswerSays (P.opening caller.old)
        (P.number caller.old) session (P.own caller.old) writer.now }
    ensures board { P.calls_on board.now caller.new }
    ensures opening { P.opening caller.new ≡ P.opening caller.old }
    ensures number { P.number caller.new ≡ P.number caller.old }
    ensures others { P.others caller.new ≡ P.others caller.old }
    ensures left { LeavesByJobs (P.opening caller.old) (P.number caller.old) session number
        statement.now (P.own caller.old) (P.own caller.new) }
    ensures operations { OnTrue result (LearnsThat FitsShard CoreShardStands ShardAnswerSays
        (AddsOperations place writer.now.epoch (DropRows span.now ∷ [])) (P.opening caller.old)
        (P.number caller.old) session (P.own caller.old) (P.own caller.new)) }
    ensures at_epoch { LearnsThat FitsShard CoreShardStands ShardAnswerSays
        (AddsAtEpoch writer.now.epoch) (P.opening caller.old) (P.number caller.old) session
        (P.own caller.old) (P.own caller.new) }
    ensures holds { OnTrue result (HoldsWriter FitsShard CoreShardStands ShardAnswerSays
        (P.opening caller.new) (P.number caller.new) session (P.own caller.new) writer.now) }
    ensures open { OnFalse result (HoldsOpenWriter (P.opening caller.new) (P.number caller.new)
        session (P.own caller.new) writer.now) }
{
    match drop_region(
        rt, board, caller, size, session, number, place, cube, span, writer, alloc,
    ) {
        Ok(end) => is_done(end),
        Err(_) => false,
    }
}

// Has every shard drop the box by the writer, and ends the change.
fn delete_by<R: Wait, P: CellCaller<ShardCells>>(
    rt: &R,
    board: &Board<ShardCells>,
    caller: &mut P,
    size: &CoreSize,
    session: &mut CoreSession,
    statement: &Statement,
    place: u32,
    cube: &Schema,
    span: &Span,
    writer: &Snapshot,
    alloc: Global,
) -> Answered
    requires board { P.calls_on board.now caller.old }
    requires callers { size.now.sessions + 2 + size.now.shards ≤ callers_of board.now }
    requires served { IsServed (P.opening caller.old) (P.number caller.old) session.old.number
        size.now.shards }
    requires writer { IsWriterFor (mode_of session.old.mode) writer.now }
    requires holds { HoldsWriter FitsShard CoreShardStands ShardAnswerSays (P.opening caller.old)
        (P.number caller.old) session.old.number (P.own caller.old) writer.now }
    requires counted { session.old.commits < session.old.statements }
    requires told { IsToldOfPlace (P.own caller.old) place cube.now }
    requires is_box { IsBoxOf FitsShard CoreShardStands ShardAnswerSays (P.opening caller.old)
        (P.number caller.old) (P.own caller.old) place cube.now statement.now span.now }
    ensures board { P.calls_on board.now caller.new }
    ensures opening { P.opening caller.new ≡ P.opening caller.old }
    ensures number { P.number caller.new ≡ P.number caller.old }
    ensures others { P.others caller.new ≡ P.others caller.old }
    ensures answered { (first : List CoreEntry)
        → HasBegunWith (P.opening caller.old) (P.number caller.old) session.old statement.now first
        (P.own caller.old) (IsDeleteText place cube.now statement.now) writer.now AddsNoOperation
        → AnswersAsDelete (P.opening caller.old) (P.number caller.old) session.old statement.now first
        (P.own caller.new) place cube.now session.new result }
{
    let number = session.number;
    let counted = session.statements;
    if has_dropped(
        rt, board, caller, size, number, counted, statement, place, cube, span, writer, alloc,
    ) {
        finish_delete(
            rt, board, caller, size, session, statement, place, cube, span, writer, alloc,
        )
    } else {
        fail_delete(
            rt, board, caller, size, session, statement, place, cube, writer, alloc,
        )
    }
}

/// Drops the box of a counted DELETE by a writer of its own, which is committed, or by that of the transaction that is
/// open. It is refused where no writer can be opened for want of memory, and fails where memory runs out after that.
pub(crate) fn delete_box<R: Wait, P: CellCaller<ShardCells>>(
    rt: &R,
    board: &Board<ShardCells>,
    caller: &mut P,
    size: &CoreSize,
    session: &mut CoreSession,
    statement: &Statement,
    place: u32,
    cube: &Schema,
    span: &Span,
    alloc: Global,
) -> Answered
    requires board { P.calls_on board.now caller.old }
    requires callers { size.now.sessions + 2 + size.now.shards ≤ callers_of board.now }
    requires may { MayChange (P.opening caller.old) (P.number caller.old) size.now.shards
        session.old (P.own caller.old) }
    requires told { IsToldOfPlace (P.own caller.old) place cube.now }
    requires is_box { IsBoxOf FitsShard CoreShardStands ShardAnswerSays (P.opening caller.old)
        (P.number caller.old) (P.own caller.old) place cube.now statement.now span.now }
    ensures board { P.calls_on board.now caller.new }
    ensures opening { P.opening caller.new ≡ P.opening caller.old }
    ensures number { P.number caller.new ≡ P.number caller.old }
    ensures others { P.others caller.new ≡ P.others caller.old }
    ensures answered { (first : List CoreEntry)
        → HasChangedNothing (P.opening caller.old) (P.number caller.old) session.old statement.now
        first (P.own caller.old) (IsDeleteText place cube.now statement.now)
        → AnswersAsDelete (P.opening caller.old) (P.number caller.old) session.old statement.now first
        (P.own caller.new) place cube.now session.new result }
{
    match begin_change(rt, board, caller, session) {
        Ok(writer) => delete_by(
            rt, board, caller, size, session, statement, place, cube, span, &writer, alloc,
        ),
        Err(_) => {
            let decl = cube.decl();
            let refusal = Refusal::NoMemory;
            refuse_delete(
                rt, board, caller, size, session, statement, place, decl, refusal,
            )
        }
    }
}
