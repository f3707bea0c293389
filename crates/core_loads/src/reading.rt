//! The file of a LOAD that found its cube is read, and its records are loaded.
ghost use Rattle.std.specs.Prelude.{◌≡◌, ◌+◌, ◌≤◌, Err, List};
ghost use Rattle.core_changes.specs.ChangesUnderWay.{HasChangedNothing, MayChange};
ghost use Rattle.core_loads.specs.LoadEnds.{AnswersAsLoad, AnswersFromShelf, NoText};
ghost use Rattle.core_loads.specs.ShelfLoads.{
  IsAnsweredFor,
  LoadsRows,
  allowed_loaded,
  path_loaded,
};
ghost use Rattle.core_names.specs.CoreEncoders.{MayAskForCodes};
ghost use Rattle.core_program.specs.CoreFits.{CoreEntry};
ghost use Rattle.cube_journal.specs.declared.reply.Reply.TheVariants as reply;
ghost use Rattle.cube_journal.specs.declared.refusal.Refusal.TheVariants as refusal;
ghost use Rattle.cube_run.specs.RunRecords.{LoadedFile};
ghost use Rattle.cube_values.specs.declared.call_error.CallError.TheVariants.{Fault};
ghost use Rattle.inserted_rows.specs.RowsInTheEnd.{IsToldOfCubeAt};
ghost use Rattle.linked_shards.specs.CellShards.{CoreShardStands};
ghost use Rattle.loaded_files.specs.LoadedFiles.{ShowsLoad, loaded_file};
ghost use Rattle.outside.specs.Given.{Given};
ghost use Rattle.session_desk.specs.Executed.{IfReplied};
ghost use Rattle.session_texts.specs.ToldTexts.{AreCubeTextsTold, AreTextsTold};
ghost use Rattle.shard_events.specs.ShardsInRuns.{FitsShard, ShardAnswerSays};
ghost use Rattle.turn_board.specs.Passes.{callers_of};

use crate::ending::fail_load;
use crate::putting::load_records;
use crate::refusing::refuse_load;
use board_callers::CellCaller;
use core_names::CubeTexts;
use core_program::CoreSize;
use core_states::CoreSession;
use cube_journal::{AbortCause, Refusal};
use cube_language::Statement;
use cube_schema::Schema;
use cube_values::CallError;
use linked_shards::ShardCells;
use loaded_files::open_load;
use outside::{FileFault, Shelf};
use session_desk::Answered;
use session_replies::SessionMode;
use session_texts::{SessionTexts, told_texts_stay_told};
use std::alloc::Global;
use std::sync::Wait;
use turn_board::Board;

// A LOAD whose file cannot be read: that ends the transaction that is open, and else it is refused.
fn refuse_unread<R: Wait, P: CellCaller<ShardCells>>(
    rt: &R,
    board: &Board<ShardCells>,
    caller: &mut P,
    size: &CoreSize,
    session: &mut CoreSession,
    statement: &Statement,
    place: u32,
    cube: &Schema,
    alloc: Global,
) -> Answered
    requires board { P.calls_on board.now caller.old }
    requires callers { size.now.sessions + 2 + size.now.shards ≤ callers_of board.now }
    requires may { MayChange (P.opening caller.old) (P.number caller.old) size.now.shards
        session.old (P.own caller.old) }
    ensures board { P.calls_on board.now caller.new }
    ensures opening { P.opening caller.new ≡ P.opening caller.old }
    ensures number { P.number caller.new ≡ P.number caller.old }
    ensures others { P.others caller.new ≡ P.others caller.old }
    ensures said { IfReplied result (λ said. said ≡ reply.Refused refusal.ReadFault) }
    ensures answered { (first : List CoreEntry) (file : LoadedFile)
        → HasChangedNothing (P.opening caller.old) (P.number caller.old) session.old statement.now
        first (P.own caller.old) NoText
        → AnswersAsLoad (P.opening caller.old) (P.number caller.old) session.old statement.now file first
        (P.own caller.new) place cube.now session.new result }
{
    match &session.mode {
        SessionMode::Open { writer } => {
            let own = writer.copy();
            let cause = AbortCause::ReadFault;
            let refusal = Refusal::ReadFault;
            fail_load(
                rt, board, caller, size, session, statement, place, cube, &own, cause, refusal,
                alloc,
            )
        }
        SessionMode::Idle => {
            let refusal = Refusal::ReadFault;
            refuse_load(rt, board, caller, size, session, statement, refusal)
        }
        SessionMode::Aborted { .. } => unreachable!(),
    }
}

// A LOAD whose file is not there, is too long or cannot be read.
fn refuse_file<R: Wait, P: CellCaller<ShardCells>>(
    rt: &R,
    board: &Board<ShardCells>,
    caller: &mut P,
    size: &CoreSize,
    session: &mut CoreSession,
    statement: &Statement,
    place: u32,
    cube: &Schema,
    fault: FileFault,
    alloc: Global,
) -> Answered
    requires board { P.calls_on board.now caller.old }
    requires callers { size.now.sessions + 2 + size.now.shards ≤ callers_of board.now }
    requires may { MayChange (P.opening caller.old) (P.number caller.old) size.now.shards
        session.old (P.own caller.old) }
    ensures board { P.calls_on board.now caller.new }
    ensures opening { P.opening caller.new ≡ P.opening caller.old }
    ensures number { P.number caller.new ≡ P.number caller.old }
    ensures others { P.others caller.new ≡ P.others caller.old }
    ensures said { IfReplied result (IsAnsweredFor (Err (Fault fault))) }
    ensures answered { (first : List CoreEntry) (given : Given)
        → ShowsLoad cube.now given (Err (Fault fault))
        → HasChangedNothing (P.opening caller.old) (P.number caller.old) session.old statement.now
        first (P.own caller.old) NoText
        → AnswersAsLoad (P.opening caller.old) (P.number caller.old) session.old statement.now
        (loaded_file given) first (P.own caller.new) place cube.now session.new result }
{
    match fault {
        FileFault::Absent => {
            let refusal = Refusal::NoSuchFile;
            refuse_load(rt, board, caller, size, session, statement, refusal)
        }
        FileFault::TooLong { size: bytes } => {
            let refusal = Refusal::FileTooLong { size: bytes };
            refuse_load(rt, board, caller, size, session, statement, refusal)
        }
        FileFault::Failed => refuse_unread(
            rt, board, caller, size, session, statement, place, cube, alloc,
        ),
    }
}

// Opens the file of a counted LOAD that is bound to its cube, and loads its records.
fn load_file<R: Wait, P: CellCaller<ShardCells>, F: Shelf>(
    rt: &R,
    board: &Board<ShardCells>,
    caller: &mut P,
    size: &CoreSize,
    session: &mut CoreSession,
    statement: &Statement,
    shelf: &mut F,
    place: u32,
    cube: &Schema,
    known: &mut CubeTexts,
    path: &str,
    allowed: u64,
    alloc: Global,
) -> Answered
    requires board { P.calls_on board.now caller.old }
    requires callers { size.now.sessions + 2 + size.now.shards ≤ callers_of board.now }
    requires may { MayChange (P.opening caller.old) (P.number caller.old) size.now.shards
        session.old (P.own caller.old) }
    requires asks { MayAskForCodes FitsShard CoreShardStands ShardAnswerSays (P.opening caller.old)
        (P.number caller.old) (P.own caller.old) session.old.number known.old place cube.now }
    requires path { path.now ≡ path_loaded statement.now }
    requires allows { allowed ≡ allowed_loaded statement.now }
    ensures board { P.calls_on board.now caller.new }
    ensures opening { P.opening caller.new ≡ P.opening caller.old }
    ensures number { P.number caller.new ≡ P.number caller.old }
    ensures others { P.others caller.new ≡ P.others caller.old }
    ensures texts { AreCubeTextsTold (P.own caller.new) place cube.now.dims known.new }
    ensures same { F.told shelf.new ≡ F.told shelf.old }
    ensures later { F.fault_count shelf.old ≤ F.fault_count shelf.new }
    ensures answered { AnswersFromShelf (P.opening caller.old) (P.number caller.old) (record {
      told = F.told shelf.old;
      calls = F.call_list shelf.old;
      new_calls = F.call_list shelf.new;
      faults = F.fault_count shelf.old;
      new_faults = F.fault_count shelf.new;
      absences = F.absence_count shelf.old;
      new_absences = F.absence_count shelf.new;
    })
        session.old statement.now (P.own caller.old) (P.own caller.new) place cube.now session.new result }
{
    match open_load(alloc, shelf, path, cube) {
        Ok(records) => load_records(
            rt, board, caller, size, session, statement, place, cube, known, records, allowed,
            alloc,
        ),
        Err(CallError::Fault(fault)) => refuse_file(
            rt, board, caller, size, session, statement, place, cube, fault, alloc,
        ),
        Err(CallError::NoMemory) => {
            let refusal = Refusal::NoMemory;
            refuse_load(rt, board, caller, size, session, statement, refusal)
        }
    }
}

// The same with the texts that the session knows of the cube.
fn load_knowing<R: Wait, P: CellCaller<ShardCells>, F: Shelf>(
    rt: &R,
    board: &Board<ShardCells>,
    caller: &mut P,
    size: &CoreSize,
    session: &mut CoreSession,
    statement: &Statement,
    texts: &mut SessionTexts,
    shelf: &mut F,
    place: u32,
    cube: &Schema,
    path: &str,
    allowed: u64,
    alloc: Global,
) -> Answered
    requires board { P.calls_on board.now caller.old }
    requires callers { size.now.sessions + 2 + size.now.shards ≤ callers_of board.now }
    requires may { MayChange (P.opening caller.old) (P.number caller.old) size.now.shards
        session.old (P.own caller.old) }
    requires told { IsToldOfCubeAt (P.own caller.old) place cube.now }
    requires texts { AreTextsTold (P.own caller.old) texts.old }
    requires path { path.now ≡ path_loaded statement.now }
    requires allows { allowed ≡ allowed_loaded statement.now }
    ensures board { P.calls_on board.now caller.new }
    ensures opening { P.opening caller.new ≡ P.opening caller.old }
    ensures number { P.number caller.new ≡ P.number caller.old }
    ensures others { P.others caller.new ≡ P.others caller.old }
    ensures texts { AreTextsTold (P.own caller.new) texts.new }
    ensures same { F.told shelf.new ≡ F.told shelf.old }
    ensures later { F.fault_count shelf.old ≤ F.fault_count shelf.new }
    ensures answered { AnswersFromShelf (P.opening caller.old) (P.number caller.old) (record {
      told = F.told shelf.old;
      calls = F.call_list shelf.old;
      new_calls = F.call_list shelf.new;
      faults = F.fault_count shelf.old;
      new_faults = F.fault_count shelf.new;
      absences = F.absence_count shelf.old;
      new_absences = F.absence_count shelf.new;
    })
        session.old statement.now (P.own caller.old) (P.own caller.new) place cube.now session.new result }
{
    told_texts_stay_told();
    let dims = cube.decl().dims.as_slice();
    match texts.take(alloc, place, dims) {
        Ok(kept) => {
            let mut taken = kept;
            let answered = load_file(
                rt,
                board,
                caller,
                size,
                session,
                statement,
                shelf,
                place,
                cube,
                &mut taken.texts,
                path,
                allowed,
                alloc,
            );
            texts.put_back(place, taken);
            answered
        }
        Err(_) => {
            let refusal = Refusal::NoMemory;
            refuse_load(rt, board, caller, size, session, statement, refusal)
        }
    }
}

/// A counted LOAD whose cube the session was told of.
pub(crate) fn load_bound<R: Wait, P: CellCaller<ShardCells>, F: Shelf>(
    rt: &R,
    board: &Board<ShardCells>,
    caller: &mut P,
    size: &CoreSize,
    session: &mut CoreSession,
    statement: &Statement,
    texts: &mut SessionTexts,
    shelf: &mut F,
    place: u32,
    cube: &Schema,
    alloc: Global,
) -> Answered
    requires board { P.calls_on board.now caller.old }
    requires callers { size.now.sessions + 2 + size.now.shards ≤ callers_of board.now }
    requires may { MayChange (P.opening caller.old) (P.number caller.old) size.now.shards
        session.old (P.own caller.old) }
    requires loads { LoadsRows statement.now }
    requires told { IsToldOfCubeAt (P.own caller.old) place cube.now }
    requires texts { AreTextsTold (P.own caller.old) texts.old }
    ensures board { P.calls_on board.now caller.new }
    ensures opening { P.opening caller.new ≡ P.opening caller.old }
    ensures number { P.number caller.new ≡ P.number caller.old }
    ensures others { P.others caller.new ≡ P.others caller.old }
    ensures texts { AreTextsTold (P.own caller.new) texts.new }
    ensures same { F.told shelf.new ≡ F.told shelf.old }
    ensures later { F.fault_count shelf.old ≤ F.fault_count shelf.new }
    ensures answered { AnswersFromShelf (P.opening caller.old) (P.number caller.old) (record {
      told = F.told shelf.old;
      calls = F.call_list shelf.old;
      new_calls = F.call_list shelf.new;
      faults = F.fault_count shelf.old;
      new_faults = F.fault_count shelf.new;
      absences = F.absence_count shelf.old;
      new_absences = F.absence_count shelf.new;
    })
        session.old statement.now (P.own caller.old) (P.own caller.new) place cube.now session.new result }
{
    match statement {
        Statement::Load { path, reject, .. } => {
            let from = path.as_str();
            load_knowing(
                rt, board, caller, size, session, statement, texts, shelf, place, cube, from,
                *reject, alloc,
            )
        }
        _ => unreachable!(),
    }
}
