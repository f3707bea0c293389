//! A LOAD that has begun ends.
ghost use Rattle.std.specs.Prelude.{◌≡◌, ◌+◌, ◌<◌, ◌≤◌, List};
ghost use mathlib.Core.List.{IsPrefix};
ghost use Rattle.core_agreements.specs.PostsForOperations.{batches_posted};
ghost use Rattle.core_changes.specs.ChangesUnderWay.{HasBegunWith};
ghost use Rattle.core_loads.specs.LoadEnds.{AnswersAsLoad, FailsBy, HoldsOfRecords, IsFileText};
ghost use Rattle.core_loads.specs.ShelfLoads.{IsOfRecords, allowed_loaded};
ghost use Rattle.core_program.specs.CoreFits.{CoreEntry};
ghost use Rattle.cube_journal.specs.declared.reply.Reply.TheVariants as reply;
ghost use Rattle.cube_run.specs.RunRecords.{LoadedFile};
ghost use Rattle.cube_values.specs.declared.row.CodedRow.{CodedRow};
ghost use Rattle.session_snapshots.specs.KnownHolds.{HoldsWriter};
ghost use Rattle.linked_shards.specs.CellShards.{CoreShardStands};
ghost use Rattle.loaded_batches.specs.LoadEnds.{StandForRecords};
ghost use Rattle.core_changes.specs.ChangeEnds.{IsWriterFor};
ghost use Rattle.posted_pasts.specs.PostsAdded.{AddsAtEpoch, AddsOperations};
ghost use Rattle.scripted_pasts.specs.Served.{IsServed};
ghost use Rattle.session_desk.specs.Executed.{IfReplied};
ghost use Rattle.session_groups.specs.ShardGroups.{HoldsOpenWriter};
ghost use Rattle.session_replies.specs.Modes.{mode_of};
ghost use Rattle.shard_events.specs.ShardsInRuns.{FitsShard, ShardAnswerSays};
ghost use Rattle.turn_board.specs.Passes.{callers_of};

use board_callers::CellCaller;
use core_changes::{fail_change, finish_change};
use core_program::CoreSize;
use core_states::CoreSession;
use cube_journal::{AbortCause, Refusal, Reply};
use cube_language::Statement;
use cube_schema::Schema;
use cube_values::Snapshot;
use linked_shards::ShardCells;
use row_encoding::BadRecords;
use session_desk::Answered;
use std::alloc::Global;
use std::sync::Wait;
use turn_board::Board;

/// Ends a LOAD whose rows all shards have, and answers how many there are, which records are bad, and the epoch of its
/// writer. It stops where the round that follows the commit runs out of memory.
pub(crate) fn finish_load<R: Wait, P: CellCaller<ShardCells>>(
    rt: &R,
    board: &Board<ShardCells>,
    caller: &mut P,
    size: &CoreSize,
    session: &mut CoreSession,
    statement: &Statement,
    place: u32,
    cube: &Schema,
    writer: &Snapshot,
    rows: u64,
    bad: BadRecords,
    alloc: Global,
) -> Answered
    requires board { P.calls_on board.now caller.old }
    requires callers { size.now.sessions + 2 + size.now.shards ≤ callers_of board.now }
    requires served { IsServed (P.opening caller.old) (P.number caller.old) session.old.number
        size.now.shards }
    requires writer { IsWriterFor (mode_of session.old.mode) writer.now }
    requires holds { HoldsWriter FitsShard CoreShardStands ShardAnswerSays (P.opening caller.old)
        (P.number caller.old) session.old.number (P.own caller.old) writer.now }
    requires counted { session.old.commits < session.old.statements }
    ensures board { P.calls_on board.now caller.new }
    ensures opening { P.opening caller.new ≡ P.opening caller.old }
    ensures number { P.number caller.new ≡ P.number caller.old }
    ensures others { P.others caller.new ≡ P.others caller.old }
    ensures more { IsPrefix (P.own caller.old) (P.own caller.new) }
    ensures said { IfReplied result IsOfRecords }
    ensures answered { (first : List CoreEntry) (file : LoadedFile) (batches : List (List CodedRow))
        → HoldsOfRecords (P.opening caller.old) (P.number caller.old) (P.own caller.old) place cube.now
        (allowed_loaded statement.now) file (λ lists looked.
        StandForRecords cube.now lists (allowed_loaded statement.now) looked batches rows bad)
        → HasBegunWith (P.opening caller.old) (P.number caller.old) session.old statement.now first
        (P.own caller.old) (IsFileText (P.opening caller.old) (P.number caller.old) (P.own caller.old)
        place cube.now (allowed_loaded statement.now) file) writer.now
        (AddsOperations place writer.now.epoch (batches_posted batches))
        → AnswersAsLoad (P.opening caller.old) (P.number caller.old) session.old statement.now file first
        (P.own caller.new) place cube.now session.new result }
{
    if finish_change(rt, board, caller, size, session, writer, alloc) {
        let rejected = bad.count;
        let epoch = writer.epoch;
        Answered::Replied(Reply::Loaded {
            rows,
            rejected,
            list: bad.first,
            epoch,
        })
    } else {
        Answered::Stopped
    }
}

/// Ends a LOAD that has failed once its writer was open, and refuses it: what it did is taken back. It stops where
/// there is no memory for that.
pub(crate) fn fail_load<R: Wait, P: CellCaller<ShardCells>>(
    rt: &R,
    board: &Board<ShardCells>,
    caller: &mut P,
    size: &CoreSize,
    session: &mut CoreSession,
    statement: &Statement,
    place: u32,
    cube: &Schema,
    writer: &Snapshot,
    cause: AbortCause,
    refusal: Refusal,
    alloc: Global,
) -> Answered
    requires board { P.calls_on board.now caller.old }
    requires callers { size.now.sessions + 2 + size.now.shards ≤ callers_of board.now }
    requires served { IsServed (P.opening caller.old) (P.number caller.old) session.old.number
        size.now.shards }
    requires writer { IsWriterFor (mode_of session.old.mode) writer.now }
    requires holds { HoldsOpenWriter (P.opening caller.old) (P.number caller.old) session.old.number
        (P.own caller.old) writer.now }
    requires counted { session.old.commits < session.old.statements }
    ensures board { P.calls_on board.now caller.new }
    ensures opening { P.opening caller.new ≡ P.opening caller.old }
    ensures number { P.number caller.new ≡ P.number caller.old }
    ensures others { P.others caller.new ≡ P.others caller.old }
    ensures more { IsPrefix (P.own caller.old) (P.own caller.new) }
    ensures said { IfReplied result (λ said. said ≡ reply.Refused refusal) }
    ensures answered { (first : List CoreEntry) (file : LoadedFile)
        → FailsBy (P.opening caller.old) (P.number caller.old) (P.own caller.old) place cube.now
        (allowed_loaded statement.now) file (mode_of session.old.mode) writer.now cause refusal
        → HasBegunWith (P.opening caller.old) (P.number caller.old) session.old statement.now first
        (P.own caller.old) (IsFileText (P.opening caller.old) (P.number caller.old) (P.own caller.old)
        place cube.now (allowed_loaded statement.now) file) writer.now (AddsAtEpoch writer.now.epoch)
        → AnswersAsLoad (P.opening caller.old) (P.number caller.old) session.old statement.now file first
        (P.own caller.new) place cube.now session.new result }
{
    if fail_change(rt, board, caller, size, session, writer, cause, alloc) {
        Answered::Replied(Reply::Refused { refusal })
    } else {
        Answered::Stopped
    }
}
