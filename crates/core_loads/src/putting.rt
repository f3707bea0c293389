//! The records of the file of a LOAD come to their shards, by the writer of the change.
ghost use Rattle.std.specs.Prelude.{◌≡◌, ◌+◌, ◌<◌, ◌≤◌, ℕ, List};
ghost use mathlib.Core.List.{IsPrefix};
ghost use Rattle.core_changes.specs.ChangesUnderWay.{HasBegunWith, HasChangedNothing, MayChange};
ghost use Rattle.core_loads.specs.LoadEnds.{AnswersAsLoad, NoText};
ghost use Rattle.core_loads.specs.ShelfLoads.{IsOfRecords, allowed_loaded};
ghost use Rattle.core_names.specs.CoreEncoders.{MayAskForCodes};
ghost use Rattle.core_program.specs.CoreFits.{CoreEntry};
ghost use Rattle.csv_load.specs.Loads.{BeginsLoad, LoadState};
ghost use Rattle.session_snapshots.specs.KnownHolds.{HoldsWriter};
ghost use Rattle.linked_shards.specs.CellShards.{CoreShardStands};
ghost use Rattle.loaded_batches.specs.LoadEnds.{HasEndedSo, HoldsAfterLoad};
ghost use Rattle.loaded_batches.specs.LoadTexts.{AsksForSuch};
ghost use Rattle.loaded_batches.specs.LoadingCalls.{GoesOnLoading};
ghost use Rattle.loaded_files.specs.LoadedFiles.{loaded_file};
ghost use Rattle.core_changes.specs.ChangeEnds.{IsWriterFor};
ghost use Rattle.outside.specs.Given.{whole};
ghost use Rattle.posted_pasts.specs.PostsAdded.{AddsNoOperation};
ghost use Rattle.scripted_pasts.specs.Served.{IsServed};
ghost use Rattle.session_desk.specs.Executed.{IfReplied};
ghost use Rattle.session_replies.specs.Modes.{mode_of};
ghost use Rattle.session_texts.specs.ToldTexts.{AreCubeTextsTold};
ghost use Rattle.shard_events.specs.ShardsInRuns.{FitsShard, ShardAnswerSays};
ghost use Rattle.turn_board.specs.Passes.{callers_of};

use crate::ending::{fail_load, finish_load};
use crate::refusing::refuse_load;
use board_callers::CellCaller;
use core_changes::begin_change;
use core_names::CubeTexts;
use core_program::CoreSize;
use core_states::CoreSession;
use csv_load::Loader;
use cube_journal::{AbortCause, Refusal};
use cube_language::Statement;
use cube_schema::Schema;
use cube_values::Snapshot;
use linked_shards::ShardCells;
use loaded_batches::{LoadEnd, put_records};
use session_desk::Answered;
use std::alloc::Global;
use std::sync::Wait;
use turn_board::Board;

// Ends a LOAD by what came of its records.
fn end_load<R: Wait, P: CellCaller<ShardCells>>(
    rt: &R,
    board: &Board<ShardCells>,
    caller: &mut P,
    size: &CoreSize,
    session: &mut CoreSession,
    statement: &Statement,
    place: u32,
    cube: &Schema,
    writer: &Snapshot,
    allowed: u64,
    ended: LoadEnd,
    alloc: Global,
) -> Answered
    requires board { P.calls_on board.now caller.old }
    requires callers { size.now.sessions + 2 + size.now.shards ≤ callers_of board.now }
    requires served { IsServed (P.opening caller.old) (P.number caller.old) session.old.number
        size.now.shards }
    requires writer { IsWriterFor (mode_of session.old.mode) writer.now }
    requires holds { HoldsAfterLoad (P.opening caller.old) (P.number caller.old) session.old.number
        writer.now (P.own caller.old) ended }
    requires counted { session.old.commits < session.old.statements }
    requires allows { allowed ≡ allowed_loaded statement.now }
    ensures board { P.calls_on board.now caller.new }
    ensures opening { P.opening caller.new ≡ P.opening caller.old }
    ensures number { P.number caller.new ≡ P.number caller.old }
    ensures others { P.others caller.new ≡ P.others caller.old }
    ensures more { IsPrefix (P.own caller.old) (P.own caller.new) }
    ensures said { IfReplied result IsOfRecords }
    ensures answered { (first begun : List CoreEntry) (load : LoadState) (bytes : List ℕ)
        → BeginsLoad load cube.now bytes
        → HasBegunWith (P.opening caller.old) (P.number caller.old) session.old statement.now first begun
        NoText writer.now AddsNoOperation
        → GoesOnLoading (P.opening caller.old) (P.number caller.old) session.old.number place
        writer.now.epoch begun (P.own caller.old)
        → AsksForSuch (P.opening caller.old) (P.number caller.old) place cube.now session.old.number
        allowed load begun (P.own caller.old)
        → HasEndedSo (P.opening caller.old) (P.number caller.old) session.old.number place writer.now
        cube.now allowed load begun (P.own caller.old) ended
        → AnswersAsLoad (P.opening caller.old) (P.number caller.old) session.old statement.now
        (loaded_file (whole bytes)) first (P.own caller.new) place cube.now session.new result }
{
    match ended {
        LoadEnd::Stored { rows, bad } => finish_load(
            rt, board, caller, size, session, statement, place, cube, writer, rows, bad, alloc,
        ),
        LoadEnd::TooMany { rejected } => {
            let refusal = Refusal::TooManyRejected { rejected, allowed };
            let cause = AbortCause::TooManyRejected;
            fail_load(
                rt, board, caller, size, session, statement, place, cube, writer, cause, refusal,
                alloc,
            )
        }
        LoadEnd::ShardFull { shard, rows } => {
            let refusal = Refusal::ShardFull { shard, rows };
            let cause = AbortCause::ShardFull { shard, rows };
            fail_load(
                rt, board, caller, size, session, statement, place, cube, writer, cause, refusal,
                alloc,
            )
        }
        LoadEnd::OutOfMemory => {
            let refusal = Refusal::NoMemory;
            let cause = AbortCause::NoMemory;
            fail_load(
                rt, board, caller, size, session, statement, place, cube, writer, cause, refusal,
                alloc,
            )
        }
    }
}

// Puts the records of a file by a writer, and ends the change.
fn load_by<R: Wait, P: CellCaller<ShardCells>>(
    rt: &R,
    board: &Board<ShardCells>,
    caller: &mut P,
    size: &CoreSize,
    session: &mut CoreSession,
    statement: &Statement,
    place: u32,
    cube: &Schema,
    known: &mut CubeTexts,
    records: Loader,
    allowed: u64,
    writer: &Snapshot,
    alloc: Global,
) -> Answered
    requires board { P.calls_on board.now caller.old }
    requires callers { size.now.sessions + 2 + size.now.shards ≤ callers_of board.now }
    requires served { IsServed (P.opening caller.old) (P.number caller.old) session.old.number
        size.now.shards }
    requires writer { IsWriterFor (mode_of session.old.mode) writer.now }
    requires holds { HoldsWriter FitsShard CoreShardStands ShardAnswerSays (P.opening caller.old)
        (P.number caller.old) session.old.number (P.own caller.old) writer.now }
    requires counted { session.old.commits < session.old.statements }
    requires asks { MayAskForCodes FitsShard CoreShardStands ShardAnswerSays (P.opening caller.old)
        (P.number caller.old) (P.own caller.old) session.old.number known.old place cube.now }
    requires allows { allowed ≡ allowed_loaded statement.now }
    requires cube { records.decl ≡ cube.now }
    requires begins { records.number ≡ 0 }
    ensures board { P.calls_on board.now caller.new }
    ensures opening { P.opening caller.new ≡ P.opening caller.old }
    ensures number { P.number caller.new ≡ P.number caller.old }
    ensures others { P.others caller.new ≡ P.others caller.old }
    ensures texts { AreCubeTextsTold (P.own caller.new) place cube.now.dims known.new }
    ensures said { IfReplied result IsOfRecords }
    ensures answered { (first : List CoreEntry) (bytes : List ℕ) → BeginsLoad records cube.now bytes
        → HasBegunWith (P.opening caller.old) (P.number caller.old) session.old statement.now first
        (P.own caller.old) NoText writer.now AddsNoOperation
        → AnswersAsLoad (P.opening caller.old) (P.number caller.old) session.old statement.now
        (loaded_file (whole bytes)) first (P.own caller.new) place cube.now session.new result }
{
    let number = session.number;
    let counted = session.statements;
    let ended = put_records(
        rt, board, caller, size, number, counted, place, cube, known, records, allowed, writer,
        alloc,
    );
    end_load(
        rt, board, caller, size, session, statement, place, cube, writer, allowed, ended, alloc,
    )
}

/// Puts the records of the file of a counted LOAD by a writer of its own, which is committed, or by that of the
/// transaction that is open. It is refused where no writer can be opened for want of memory, and fails where too many
/// records are bad, a shard refuses its rows, or memory runs out after that.
pub(crate) fn load_records<R: Wait, P: CellCaller<ShardCells>>(
    rt: &R,
    board: &Board<ShardCells>,
    caller: &mut P,
    size: &CoreSize,
    session: &mut CoreSession,
    statement: &Statement,
    place: u32,
    cube: &Schema,
    known: &mut CubeTexts,
    records: Loader,
    allowed: u64,
    alloc: Global,
) -> Answered
    requires board { P.calls_on board.now caller.old }
    requires callers { size.now.sessions + 2 + size.now.shards ≤ callers_of board.now }
    requires may { MayChange (P.opening caller.old) (P.number caller.old) size.now.shards
        session.old (P.own caller.old) }
    requires asks { MayAskForCodes FitsShard CoreShardStands ShardAnswerSays (P.opening caller.old)
        (P.number caller.old) (P.own caller.old) session.old.number known.old place cube.now }
    requires allows { allowed ≡ allowed_loaded statement.now }
    requires cube { records.decl ≡ cube.now }
    requires begins { records.number ≡ 0 }
    ensures board { P.calls_on board.now caller.new }
    ensures opening { P.opening caller.new ≡ P.opening caller.old }
    ensures number { P.number caller.new ≡ P.number caller.old }
    ensures others { P.others caller.new ≡ P.others caller.old }
    ensures texts { AreCubeTextsTold (P.own caller.new) place cube.now.dims known.new }
    ensures said { IfReplied result IsOfRecords }
    ensures answered { (first : List CoreEntry) (bytes : List ℕ) → BeginsLoad records cube.now bytes
        → HasChangedNothing (P.opening caller.old) (P.number caller.old) session.old statement.now
        first (P.own caller.old) NoText
        → AnswersAsLoad (P.opening caller.old) (P.number caller.old) session.old statement.now
        (loaded_file (whole bytes)) first (P.own caller.new) place cube.now session.new result }
{
    match begin_change(rt, board, caller, session) {
        Ok(writer) => load_by(
            rt, board, caller, size, session, statement, place, cube, known, records, allowed,
            &writer, alloc,
        ),
        Err(_) => {
            let refusal = Refusal::NoMemory;
            refuse_load(rt, board, caller, size, session, statement, refusal)
        }
    }
}
