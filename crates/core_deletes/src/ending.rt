//! A DELETE that has begun ends.
ghost use Rattle.std.specs.Prelude.{◌≡◌, ◌+◌, ◌<◌, ◌≤◌, [], ◌∷◌, List};
ghost use Rattle.core_changes.specs.ChangesUnderWay.{HasBegunWith};
ghost use Rattle.core_deletes.specs.DeleteEnds.{AnswersAsDelete};
ghost use Rattle.core_events.specs.Serial.{DropRows};
ghost use Rattle.core_program.specs.CoreFits.{CoreEntry};
ghost use Rattle.dropped_regions.specs.DeleteBoxes.{IsBoxOf, IsDeleteText};
ghost use Rattle.session_snapshots.specs.KnownHolds.{HoldsWriter};
ghost use Rattle.linked_shards.specs.CellShards.{CoreShardStands};
ghost use Rattle.shard_events.specs.ShardsInRuns.{FitsShard, ShardAnswerSays};
ghost use Rattle.core_changes.specs.ChangeEnds.{IsWriterFor};
ghost use Rattle.posted_pasts.specs.PostsAdded.{AddsAtEpoch, AddsOperations};
ghost use Rattle.scripted_pasts.specs.Served.{IsServed};
ghost use Rattle.session_groups.specs.ShardGroups.{HoldsOpenWriter};
ghost use Rattle.session_replies.specs.Modes.{mode_of};
ghost use Rattle.turn_board.specs.Passes.{callers_of};

use board_callers::CellCaller;
use core_changes::{fail_change, finish_change};
use core_program::CoreSize;
use core_states::CoreSession;
use cube_journal::{AbortCause, Refusal, Reply};
use cube_language::Statement;
use cube_schema::Schema;
use cube_values::{Snapshot, Span};
use linked_shards::ShardCells;
use session_desk::Answered;
use std::alloc::Global;
use std::sync::Wait;
use turn_board::Board;

/// Ends a DELETE that every shard has done, and answers the epoch of its writer. It stops where the round that follows the
/// commit runs out of memory.
pub(crate) fn finish_delete<R: Wait, P: CellCaller<ShardCells>>(
    rt: &R,
    board: &Board<ShardCells>,
    caller: &mut P,
    size: &CoreSize,
    session: &mut CoreSession,
    statement: &Statement,
    place: u32,
    cube: &Schema,
    span: &Span,
    writer: &Snapshot,
    alloc: Global,
) -> Answered
    requires board { P.calls_on board.now caller.old }
    requires callers { size.now.sessions + 2 + size.now.shards ≤ callers_of board.now }
    requires served { IsServed (P.opening caller.old) (P.number caller.old) session.old.number
        size.now.shards }
    requires writer { IsWriterFor (mode_of session.old.mode) writer.now }
    requires holds { HoldsWriter FitsShard CoreShardStands ShardAnswerSays (P.opening caller.old)
        (P.number caller.old) session.old.number (P.own caller.old) writer.now }
    requires counted { session.old.commits < session.old.statements }
    requires is_box { IsBoxOf FitsShard CoreShardStands ShardAnswerSays (P.opening caller.old)
        (P.number caller.old) (P.own caller.old) place cube.now statement.now span.now }
    ensures board { P.calls_on board.now caller.new }
    ensures opening { P.opening caller.new ≡ P.opening caller.old }
    ensures number { P.number caller.new ≡ P.number caller.old }
    ensures others { P.others caller.new ≡ P.others caller.old }
    ensures answered { (first : List CoreEntry)
        → HasBegunWith (P.opening caller.old) (P.number caller.old) session.old statement.now first
        (P.own caller.old) (IsDeleteText place cube.now statement.now) writer.now
        (AddsOperations place writer.now.epoch (DropRows span.now ∷ []))
        → AnswersAsDelete (P.opening caller.old) (P.number caller.old) session.old statement.now first
        (P.own caller.new) place cube.now session.new result }
{
    if finish_change(rt, board, caller, size, session, writer, alloc) {
        Answered::Replied(Reply::Dropped {
            epoch: writer.epoch,
        })
    } else {
        Answered::Stopped
    }
}

/// Ends a DELETE for which memory ran out once it had begun: what it did is taken back. It stops where there is no memory
/// for that either.
pub(crate) fn fail_delete<R: Wait, P: CellCaller<ShardCells>>(
    rt: &R,
    board: &Board<ShardCells>,
    caller: &mut P,
    size: &CoreSize,
    session: &mut CoreSession,
    statement: &Statement,
    place: u32,
    cube: &Schema,
    writer: &Snapshot,
    alloc: Global,
) -> Answered
    requires board { P.calls_on board.now caller.old }
    requires callers { size.now.sessions + 2 + size.now.shards ≤ callers_of board.now }
    requires served { IsServed (P.opening caller.old) (P.number caller.old) session.old.number
        size.now.shards }
    requires writer { IsWriterFor (mode_of session.old.mode) writer.now }
    requires holds { HoldsOpenWriter (P.opening caller.old) (P.number caller.old) session.old.number
        (P.own caller.old) writer.now }
    requires counted { session.old.commits < session.old.statements }
    ensures board { P.calls_on board.now caller.new }
    ensures opening { P.opening caller.new ≡ P.opening caller.old }
    ensures number { P.number caller.new ≡ P.number caller.old }
    ensures others { P.others caller.new ≡ P.others caller.old }
    ensures answered { (first : List CoreEntry)
        → HasBegunWith (P.opening caller.old) (P.number caller.old) session.old statement.now first
        (P.own caller.old) (IsDeleteText place cube.now statement.now) writer.now
        (AddsAtEpoch writer.now.epoch)
        → AnswersAsDelete (P.opening caller.old) (P.number caller.old) session.old statement.now first
        (P.own caller.new) place cube.now session.new result }
{
    if fail_change(
        rt,
        board,
        caller,
        size,
        session,
        writer,
        AbortCause::NoMemory,
        alloc,
    ) {
        Answered::Replied(Reply::Refused {
            refusal: Refusal::NoMemory,
        })
    } else {
        Answered::Stopped
    }
}
