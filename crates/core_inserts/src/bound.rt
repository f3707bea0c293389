//! An INSERT that found its cube is bound to it.
ghost use Rattle.std.specs.Prelude.{◌≡◌, ◌+◌, ◌≤◌, List};
ghost use Rattle.core_changes.specs.ChangesUnderWay.{HasChangedNothing, MayChange};
ghost use Rattle.core_inserts.specs.InsertEnds.{AnswersAsInsert, IsInsertText, IsRefusalOn, misfit_refusal};
ghost use Rattle.core_program.specs.CoreFits.{CoreEntry};
ghost use Rattle.cube_language.specs.Misfits.{FitsCube};
ghost use Rattle.inserted_rows.specs.RowsInTheEnd.{AreEncodedRows, IsToldOfCubeAt};
ghost use Rattle.session_texts.specs.ToldTexts.{AreTextsTold};
ghost use Rattle.statement_check.specs.OwnParts.{inserted_rows};
ghost use Rattle.turn_board.specs.Passes.{callers_of};

use crate::putting::insert_batch;
use board_callers::CellCaller;
use core_names::names_calls_keep_what_is_held;
use core_program::CoreSize;
use core_states::{CoreSession, refuse_plainly};
use cube_journal::Refusal;
use cube_language::{Decl, Misfit, Statement};
use cube_schema::Schema;
use cube_values::CallError;
use inserted_rows::{EncodedRows, encode_inserted};
use linked_shards::{CoreShard, ShardCells};
use session_desk::Answered;
use session_texts::{SessionTexts, told_texts_stay_told};
use statement_check::{check_statement, inserted_rows};
use std::alloc::Global;
use std::sync::Wait;
use turn_board::Board;

/// Refuses a counted INSERT before it has changed anything.
pub(crate) fn refuse_insert<R: Wait, P: CellCaller<ShardCells>>(
    rt: &R,
    board: &Board<ShardCells>,
    caller: &mut P,
    size: &CoreSize,
    session: &CoreSession,
    statement: &Statement,
    place: u32,
    decl: &Decl,
    refusal: Refusal,
) -> Answered
    requires board { P.calls_on board.now caller.old }
    requires may { MayChange (P.opening caller.old) (P.number caller.old) size.now.shards
        session.now (P.own caller.old) }
    requires why { IsRefusalOn (P.opening caller.old) (P.number caller.old) (P.own caller.old) place
        decl.now statement.now refusal }
    ensures board { P.calls_on board.now caller.new }
    ensures opening { P.opening caller.new ≡ P.opening caller.old }
    ensures number { P.number caller.new ≡ P.number caller.old }
    ensures others { P.others caller.new ≡ P.others caller.old }
    ensures answered { (first : List CoreEntry)
        → HasChangedNothing (P.opening caller.old) (P.number caller.old) session.now statement.now
        first (P.own caller.old) (IsInsertText place decl.now statement.now)
        → AnswersAsInsert (P.opening caller.old) (P.number caller.old) session.now statement.now first
        (P.own caller.new) place decl.now session.now result }
{
    refuse_plainly::<CoreShard, R, P>(rt, board, caller, session, refusal)
}

/// The same of a cube that has its schema.
pub(crate) fn refuse_bound<R: Wait, P: CellCaller<ShardCells>>(
    rt: &R,
    board: &Board<ShardCells>,
    caller: &mut P,
    size: &CoreSize,
    session: &CoreSession,
    statement: &Statement,
    place: u32,
    cube: &Schema,
    refusal: Refusal,
) -> Answered
    requires board { P.calls_on board.now caller.old }
    requires may { MayChange (P.opening caller.old) (P.number caller.old) size.now.shards
        session.now (P.own caller.old) }
    requires why { IsRefusalOn (P.opening caller.old) (P.number caller.old) (P.own caller.old) place
        cube.now statement.now refusal }
    ensures board { P.calls_on board.now caller.new }
    ensures opening { P.opening caller.new ≡ P.opening caller.old }
    ensures number { P.number caller.new ≡ P.number caller.old }
    ensures others { P.others caller.new ≡ P.others caller.old }
    ensures answered { (first : List CoreEntry)
        → HasChangedNothing (P.opening caller.old) (P.number caller.old) session.now statement.now
        first (P.own caller.old) (IsInsertText place cube.now statement.now)
        → AnswersAsInsert (P.opening caller.old) (P.number caller.old) session.now statement.now first
        (P.own caller.new) place cube.now session.now result }
{
    let decl = cube.decl();
    refuse_insert(
        rt, board, caller, size, session, statement, place, decl, refusal,
    )
}

// Puts the rows of an INSERT that fits its cube, or refuses it where one of its texts finds no place.
fn insert_encoded<R: Wait, P: CellCaller<ShardCells>>(
    rt: &R,
    board: &Board<ShardCells>,
    caller: &mut P,
    size: &CoreSize,
    session: &mut CoreSession,
    statement: &Statement,
    place: u32,
    cube: &Schema,
    encoded: EncodedRows,
    alloc: Global,
) -> Answered
    requires board { P.calls_on board.now caller.old }
    requires callers { size.now.sessions + 2 + size.now.shards ≤ callers_of board.now }
    requires may { MayChange (P.opening caller.old) (P.number caller.old) size.now.shards
        session.old (P.own caller.old) }
    requires told { IsToldOfCubeAt (P.own caller.old) place cube.now }
    requires fits { FitsCube cube.now statement.now }
    requires rows { AreEncodedRows (P.opening caller.old) (P.number caller.old) (P.own caller.old)
        place cube.now (inserted_rows statement.now) encoded }
    ensures board { P.calls_on board.now caller.new }
    ensures opening { P.opening caller.new ≡ P.opening caller.old }
    ensures number { P.number caller.new ≡ P.number caller.old }
    ensures others { P.others caller.new ≡ P.others caller.old }
    ensures answered { (first : List CoreEntry)
        → HasChangedNothing (P.opening caller.old) (P.number caller.old) session.old statement.now
        first (P.own caller.old) (IsInsertText place cube.now statement.now)
        → AnswersAsInsert (P.opening caller.old) (P.number caller.old) session.old statement.now first
        (P.own caller.new) place cube.now session.new result }
{
    match encoded {
        EncodedRows::Rows(batch) => insert_batch(
            rt, board, caller, size, session, statement, place, cube, batch, alloc,
        ),
        EncodedRows::Lacking(name) => {
            let refusal = Refusal::DictionaryFull { name };
            refuse_bound(
                rt, board, caller, size, session, statement, place, cube, refusal,
            )
        }
    }
}

// Gives the texts of an INSERT that fits its cube their numbers, and puts its rows.
fn insert_fitting<R: Wait, P: CellCaller<ShardCells>>(
    rt: &R,
    board: &Board<ShardCells>,
    caller: &mut P,
    size: &CoreSize,
    session: &mut CoreSession,
    statement: &Statement,
    texts: &mut SessionTexts,
    place: u32,
    cube: &Schema,
    alloc: Global,
) -> Answered
    requires board { P.calls_on board.now caller.old }
    requires callers { size.now.sessions + 2 + size.now.shards ≤ callers_of board.now }
    requires may { MayChange (P.opening caller.old) (P.number caller.old) size.now.shards
        session.old (P.own caller.old) }
    requires told { IsToldOfCubeAt (P.own caller.old) place cube.now }
    requires fits { FitsCube cube.now statement.now }
    requires texts { AreTextsTold (P.own caller.old) texts.old }
    ensures board { P.calls_on board.now caller.new }
    ensures opening { P.opening caller.new ≡ P.opening caller.old }
    ensures number { P.number caller.new ≡ P.number caller.old }
    ensures others { P.others caller.new ≡ P.others caller.old }
    ensures texts { AreTextsTold (P.own caller.new) texts.new }
    ensures answered { AnswersAsInsert (P.opening caller.old) (P.number caller.old) session.old
        statement.now (P.own caller.old) (P.own caller.new) place cube.now session.new result }
{
    names_calls_keep_what_is_held::<CoreShard>();
    told_texts_stay_told();
    let number = session.number;
    let rows = inserted_rows(statement);
    match encode_inserted(rt, board, caller, texts, alloc, number, place, cube, rows) {
        Ok(encoded) => insert_encoded(
            rt, board, caller, size, session, statement, place, cube, encoded, alloc,
        ),
        Err(_) => {
            let refusal = Refusal::NoMemory;
            refuse_bound(
                rt, board, caller, size, session, statement, place, cube, refusal,
            )
        }
    }
}

// The refusal of an INSERT that fails a test on its cube, or for whose tests memory ran out.
fn misfit_refusal(error: CallError<Misfit>) -> Refusal
    ensures { result ≡ misfit_refusal error }
{
    match error {
        CallError::Fault(misfit) => Refusal::of_misfit(misfit),
        CallError::NoMemory => Refusal::NoMemory,
    }
}

/// A counted INSERT whose cube the session was told of.
pub(crate) fn insert_bound<R: Wait, P: CellCaller<ShardCells>>(
    rt: &R,
    board: &Board<ShardCells>,
    caller: &mut P,
    size: &CoreSize,
    session: &mut CoreSession,
    statement: &Statement,
    texts: &mut SessionTexts,
    place: u32,
    cube: &Schema,
    alloc: Global,
) -> Answered
    requires board { P.calls_on board.now caller.old }
    requires callers { size.now.sessions + 2 + size.now.shards ≤ callers_of board.now }
    requires may { MayChange (P.opening caller.old) (P.number caller.old) size.now.shards
        session.old (P.own caller.old) }
    requires told { IsToldOfCubeAt (P.own caller.old) place cube.now }
    requires texts { AreTextsTold (P.own caller.old) texts.old }
    ensures board { P.calls_on board.now caller.new }
    ensures opening { P.opening caller.new ≡ P.opening caller.old }
    ensures number { P.number caller.new ≡ P.number caller.old }
    ensures others { P.others caller.new ≡ P.others caller.old }
    ensures texts { AreTextsTold (P.own caller.new) texts.new }
    ensures answered { AnswersAsInsert (P.opening caller.old) (P.number caller.old) session.old
        statement.now (P.own caller.old) (P.own caller.new) place cube.now session.new result }
{
    told_texts_stay_told();
    match check_statement(cube, statement) {
        Ok(()) => insert_fitting(
            rt, board, caller, size, session, statement, texts, place, cube, alloc,
        ),
        Err(error) => {
            let refusal = misfit_refusal(error);
            refuse_bound(
                rt, board, caller, size, session, statement, place, cube, refusal,
            )
        }
    }
}
