//! INSERT.
ghost use Rattle.std.specs.Prelude.{◌≡◌, ◌+◌, ◌<◌, ◌≤◌, None, IfOk, Some};
ghost use mathlib.Core.List.{IsPrefix};
ghost use Rattle.core_changes.specs.ChangesUnderWay.{MayChange};
ghost use Rattle.core_cubes.specs.StandingCubes.{HasFound};
ghost use Rattle.core_inserts.specs.InsertEnds.{AnswersAsInsert, InsertsRows};
ghost use Rattle.core_states.specs.ExecutedInCore.{HasOneMore};
ghost use Rattle.core_states.specs.StandingInCore.{HoldsForMode};
ghost use Rattle.cube_run.specs.RunRecords.{cube_needed};
ghost use Rattle.cube_run.specs.StepOutcomes.{refused_by_mode};
ghost use Rattle.linked_shards.specs.CellShards.{CoreShardStands};
ghost use Rattle.shard_events.specs.ShardsInRuns.{FitsShard, ShardAnswerSays};
ghost use Rattle.scripted_pasts.specs.Performed.{WhateverFile};
ghost use Rattle.scripted_pasts.specs.Served.{IsServed, LeavesItsWatch, PerformsWatchedOverShards};
ghost use Rattle.session_desk.specs.Executed.{IfReplied, OnStopped};
ghost use Rattle.session_replies.specs.Modes.{mode_of};
ghost use Rattle.session_texts.specs.ToldTexts.{AreTextsTold, IsFoundCube};
ghost use Rattle.turn_board.specs.Passes.{callers_of};

use crate::bound::{insert_bound, refuse_insert};
use board_callers::CellCaller;
use core_changes::changes_are_performed;
use core_cubes::{NamedCube, find_named};
use core_program::CoreSize;
use core_states::CoreSession;
use cube_journal::Refusal;
use cube_language::{Decl, MOST_STATEMENTS, Statement};
use cube_schema::{Schema, check};
use cube_values::Text;
use found_cubes::found_cubes_are_on_record;
use linked_shards::{CoreShard, ShardCells};
use query_plan::cube_needed;
use scripted_pasts::plain_statements_are_performed;
use session_desk::Answered;
use session_texts::{FoundCube, SessionTexts, told_texts_stay_told};
use std::alloc::{AllocError, Global};
use std::sync::Wait;
use turn_board::Board;

// The schema of a declaration. One of the core's cubes can be stored.
fn schema_of(alloc: Global, decl: &Decl) -> Result<Schema, AllocError>
    ensures { IfOk result (λ schema. schema ≡ decl.now) }
{
    match check(alloc, decl) {
        Ok(schema) => Ok(schema),
        Err(_) => Err(AllocError),
    }
}

// The cube that was found by a name, with its schema.
fn with_schema(alloc: Global, name: &Text, cube: &NamedCube) -> Result<FoundCube, AllocError>
    ensures { IfOk result (λ found. found
        ≡ record { name = name.now; place = cube.now.place; schema = cube.now.decl }) }
{
    let schema = schema_of(alloc, &cube.decl)?;
    let name = name.clone()?;
    Ok(FoundCube {
        name,
        place: cube.place,
        schema,
    })
}

// A counted INSERT on a cube that the session found, and keeps.
fn insert_kept<R: Wait, P: CellCaller<ShardCells>>(
    rt: &R,
    board: &Board<ShardCells>,
    caller: &mut P,
    size: &CoreSize,
    session: &mut CoreSession,
    statement: &Statement,
    texts: &mut SessionTexts,
    cube: FoundCube,
    alloc: Global,
) -> Answered
    requires board { P.calls_on board.now caller.old }
    requires callers { size.now.sessions + 2 + size.now.shards ≤ callers_of board.now }
    requires may { MayChange (P.opening caller.old) (P.number caller.old) size.now.shards
        session.old (P.own caller.old) }
    requires texts { AreTextsTold (P.own caller.old) texts.old }
    requires found { IsFoundCube (P.own caller.old) cube }
    ensures board { P.calls_on board.now caller.new }
    ensures opening { P.opening caller.new ≡ P.opening caller.old }
    ensures number { P.number caller.new ≡ P.number caller.old }
    ensures others { P.others caller.new ≡ P.others caller.old }
    ensures texts { AreTextsTold (P.own caller.new) texts.new }
    ensures answered { AnswersAsInsert (P.opening caller.old) (P.number caller.old) session.old
        statement.now (P.own caller.old) (P.own caller.new) cube.place cube.schema session.new result }
{
    let answered = insert_bound(
        rt,
        board,
        caller,
        size,
        session,
        statement,
        texts,
        cube.place,
        &cube.schema,
        alloc,
    );
    texts.keep_cube(cube);
    answered
}

// A counted INSERT whose cube was found by a search for its name.
fn insert_found<R: Wait, P: CellCaller<ShardCells>>(
    rt: &R,
    board: &Board<ShardCells>,
    caller: &mut P,
    size: &CoreSize,
    session: &mut CoreSession,
    statement: &Statement,
    texts: &mut SessionTexts,
    name: &Text,
    cube: &NamedCube,
    alloc: Global,
) -> Answered
    requires board { P.calls_on board.now caller.old }
    requires callers { size.now.sessions + 2 + size.now.shards ≤ callers_of board.now }
    requires may { MayChange (P.opening caller.old) (P.number caller.old) size.now.shards
        session.old (P.own caller.old) }
    requires texts { AreTextsTold (P.own caller.old) texts.old }
    requires found { HasFound (P.own caller.old) name.now cube.now.place cube.now.decl }
    ensures board { P.calls_on board.now caller.new }
    ensures opening { P.opening caller.new ≡ P.opening caller.old }
    ensures number { P.number caller.new ≡ P.number caller.old }
    ensures others { P.others caller.new ≡ P.others caller.old }
    ensures texts { AreTextsTold (P.own caller.new) texts.new }
    ensures answered { AnswersAsInsert (P.opening caller.old) (P.number caller.old) session.old
        statement.now (P.own caller.old) (P.own caller.new) cube.now.place cube.now.decl session.new
        result }
{
    told_texts_stay_told();
    match with_schema(alloc, name, cube) {
        Ok(found) => insert_kept(
            rt, board, caller, size, session, statement, texts, found, alloc,
        ),
        Err(_) => {
            let place = cube.place;
            let decl = &cube.decl;
            let refusal = Refusal::NoMemory;
            refuse_insert(
                rt, board, caller, size, session, statement, place, decl, refusal,
            )
        }
    }
}

// An INSERT on the cube of a name for which the session has to search.
fn insert_searched<R: Wait, P: CellCaller<ShardCells>>(
    rt: &R,
    board: &Board<ShardCells>,
    caller: &mut P,
    size: &CoreSize,
    session: &mut CoreSession,
    statement: &Statement,
    texts: &mut SessionTexts,
    name: &Text,
    alloc: Global,
) -> Answered
    requires board { P.calls_on board.now caller.old }
    requires callers { size.now.sessions + 2 + size.now.shards ≤ callers_of board.now }
    requires served { IsServed (P.opening caller.old) (P.number caller.old) session.old.number
        size.now.shards }
    requires holds { HoldsForMode FitsShard CoreShardStands ShardAnswerSays (P.opening caller.old)
        (P.number caller.old) session.old.number (P.own caller.old) (mode_of session.old.mode) }
    requires few { session.old.statements < MOST_STATEMENTS }
    requires counted { session.old.commits ≤ session.old.statements }
    requires inserts { InsertsRows statement.now }
    requires texts { AreTextsTold (P.own caller.old) texts.old }
    requires may { refused_by_mode (mode_of session.old.mode) statement.now ≡ None }
    requires needs { cube_needed statement.now ≡ Some name.now }
    ensures board { P.calls_on board.now caller.new }
    ensures opening { P.opening caller.new ≡ P.opening caller.old }
    ensures number { P.number caller.new ≡ P.number caller.old }
    ensures others { P.others caller.new ≡ P.others caller.old }
    ensures texts { AreTextsTold (P.own caller.new) texts.new }
    ensures more { HasOneMore session.old session.new }
    ensures readers { LeavesItsWatch (P.opening caller.old) (P.number caller.old) session.old.number
        (P.own caller.old) (P.own caller.new) }
    ensures holds { IfReplied result (λ said. HoldsForMode FitsShard CoreShardStands ShardAnswerSays
        (P.opening caller.new) (P.number caller.new) session.new.number (P.own caller.new)
        (mode_of session.new.mode)) }
    ensures performed { IfReplied result (PerformsWatchedOverShards (P.opening caller.old)
        (P.number caller.old) WhateverFile statement.now session.old (P.own caller.old) session.new
        (P.own caller.new)) }
    ensures stopped { OnStopped result (IsPrefix (P.own caller.old) (P.own caller.new)) }
{
    told_texts_stay_told();
    changes_are_performed();
    found_cubes_are_on_record::<CoreShard>();
    plain_statements_are_performed::<CoreShard>();
    match find_named::<CoreShard, R, P>(rt, board, caller, session, statement, name) {
        Ok(cube) => insert_found(
            rt, board, caller, size, session, statement, texts, name, &cube, alloc,
        ),
        Err(answered) => answered,
    }
}

// An INSERT on the cube of its name, which the session has found before.
fn insert_known<R: Wait, P: CellCaller<ShardCells>>(
    rt: &R,
    board: &Board<ShardCells>,
    caller: &mut P,
    size: &CoreSize,
    session: &mut CoreSession,
    statement: &Statement,
    texts: &mut SessionTexts,
    cube: FoundCube,
    alloc: Global,
) -> Answered
    requires board { P.calls_on board.now caller.old }
    requires callers { size.now.sessions + 2 + size.now.shards ≤ callers_of board.now }
    requires served { IsServed (P.opening caller.old) (P.number caller.old) session.old.number
        size.now.shards }
    requires holds { HoldsForMode FitsShard CoreShardStands ShardAnswerSays (P.opening caller.old)
        (P.number caller.old) session.old.number (P.own caller.old) (mode_of session.old.mode) }
    requires few { session.old.statements < MOST_STATEMENTS }
    requires counted { session.old.commits ≤ session.old.statements }
    requires inserts { InsertsRows statement.now }
    requires texts { AreTextsTold (P.own caller.old) texts.old }
    requires may { refused_by_mode (mode_of session.old.mode) statement.now ≡ None }
    requires needs { cube_needed statement.now ≡ Some cube.name }
    requires found { IsFoundCube (P.own caller.old) cube }
    ensures board { P.calls_on board.now caller.new }
    ensures opening { P.opening caller.new ≡ P.opening caller.old }
    ensures number { P.number caller.new ≡ P.number caller.old }
    ensures others { P.others caller.new ≡ P.others caller.old }
    ensures texts { AreTextsTold (P.own caller.new) texts.new }
    ensures more { HasOneMore session.old session.new }
    ensures readers { LeavesItsWatch (P.opening caller.old) (P.number caller.old) session.old.number
        (P.own caller.old) (P.own caller.new) }
    ensures holds { IfReplied result (λ said. HoldsForMode FitsShard CoreShardStands ShardAnswerSays
        (P.opening caller.new) (P.number caller.new) session.new.number (P.own caller.new)
        (mode_of session.new.mode)) }
    ensures performed { IfReplied result (PerformsWatchedOverShards (P.opening caller.old)
        (P.number caller.old) WhateverFile statement.now session.old (P.own caller.old) session.new
        (P.own caller.new)) }
    ensures stopped { OnStopped result (IsPrefix (P.own caller.old) (P.own caller.new)) }
{
    changes_are_performed();
    found_cubes_are_on_record::<CoreShard>();
    session.statements += 1;
    insert_kept(
        rt, board, caller, size, session, statement, texts, cube, alloc,
    )
}

// An INSERT on the cube of a name.
fn insert_named<R: Wait, P: CellCaller<ShardCells>>(
    rt: &R,
    board: &Board<ShardCells>,
    caller: &mut P,
    size: &CoreSize,
    session: &mut CoreSession,
    statement: &Statement,
    texts: &mut SessionTexts,
    name: &Text,
    alloc: Global,
) -> Answered
    requires board { P.calls_on board.now caller.old }
    requires callers { size.now.sessions + 2 + size.now.shards ≤ callers_of board.now }
    requires served { IsServed (P.opening caller.old) (P.number caller.old) session.old.number
        size.now.shards }
    requires holds { HoldsForMode FitsShard CoreShardStands ShardAnswerSays (P.opening caller.old)
        (P.number caller.old) session.old.number (P.own caller.old) (mode_of session.old.mode) }
    requires few { session.old.statements < MOST_STATEMENTS }
    requires counted { session.old.commits ≤ session.old.statements }
    requires inserts { InsertsRows statement.now }
    requires texts { AreTextsTold (P.own caller.old) texts.old }
    requires may { refused_by_mode (mode_of session.old.mode) statement.now ≡ None }
    requires needs { cube_needed statement.now ≡ Some name.now }
    ensures board { P.calls_on board.now caller.new }
    ensures opening { P.opening caller.new ≡ P.opening caller.old }
    ensures number { P.number caller.new ≡ P.number caller.old }
    ensures others { P.others caller.new ≡ P.others caller.old }
    ensures texts { AreTextsTold (P.own caller.new) texts.new }
    ensures more { HasOneMore session.old session.new }
    ensures readers { LeavesItsWatch (P.opening caller.old) (P.number caller.old) session.old.number
        (P.own caller.old) (P.own caller.new) }
    ensures holds { IfReplied result (λ said. HoldsForMode FitsShard CoreShardStands ShardAnswerSays
        (P.opening caller.new) (P.number caller.new) session.new.number (P.own caller.new)
        (mode_of session.new.mode)) }
    ensures performed { IfReplied result (PerformsWatchedOverShards (P.opening caller.old)
        (P.number caller.old) WhateverFile statement.now session.old (P.own caller.old) session.new
        (P.own caller.new)) }
    ensures stopped { OnStopped result (IsPrefix (P.own caller.old) (P.own caller.new)) }
{
    match texts.take_cube(name) {
        Some(cube) => insert_known(
            rt, board, caller, size, session, statement, texts, cube, alloc,
        ),
        None => insert_searched(
            rt, board, caller, size, session, statement, texts, name, alloc,
        ),
    }
}

/// INSERT: stores its rows, by a transaction of its own, which is committed and after which a round may be due, or
/// inside the one that is open. It is refused where no cube has its name, for the first test that it fails on its cube,
/// for its first text that finds no place in its dictionary, and for want of memory; where a shard has no room for its
/// rows, or memory runs out once the change has begun, the transaction is taken back. It stops where there is no memory
/// for what has to follow.
pub fn insert<R: Wait, P: CellCaller<ShardCells>>(
    rt: &R,
    board: &Board<ShardCells>,
    caller: &mut P,
    size: &CoreSize,
    session: &mut CoreSession,
    statement: &Statement,
    texts: &mut SessionTexts,
    alloc: Global,
) -> Answered
    requires board { P.calls_on board.now caller.old }
    requires callers { size.now.sessions + 2 + size.now.shards ≤ callers_of board.now }
    requires served { IsServed (P.opening caller.old) (P.number caller.old) session.old.number
        size.now.shards }
    requires holds { HoldsForMode FitsShard CoreShardStands ShardAnswerSays (P.opening caller.old)
        (P.number caller.old) session.old.number (P.own caller.old) (mode_of session.old.mode) }
    requires few { session.old.statements < MOST_STATEMENTS }
    requires counted { session.old.commits ≤ session.old.statements }
    requires inserts { InsertsRows statement.now }
    requires texts { AreTextsTold (P.own caller.old) texts.old }
    requires may { refused_by_mode (mode_of session.old.mode) statement.now ≡ None }
    ensures board { P.calls_on board.now caller.new }
    ensures opening { P.opening caller.new ≡ P.opening caller.old }
    ensures number { P.number caller.new ≡ P.number caller.old }
    ensures others { P.others caller.new ≡ P.others caller.old }
    ensures texts { AreTextsTold (P.own caller.new) texts.new }
    ensures more { HasOneMore session.old session.new }
    ensures readers { LeavesItsWatch (P.opening caller.old) (P.number caller.old) session.old.number
        (P.own caller.old) (P.own caller.new) }
    ensures holds { IfReplied result (λ said. HoldsForMode FitsShard CoreShardStands ShardAnswerSays
        (P.opening caller.new) (P.number caller.new) session.new.number (P.own caller.new)
        (mode_of session.new.mode)) }
    ensures performed { IfReplied result (PerformsWatchedOverShards (P.opening caller.old)
        (P.number caller.old) WhateverFile statement.now session.old (P.own caller.old) session.new
        (P.own caller.new)) }
    ensures stopped { OnStopped result (IsPrefix (P.own caller.old) (P.own caller.new)) }
{
    match cube_needed(statement) {
        Some(name) => {
            insert_named(
                rt, board, caller, size, session, statement, texts, name, alloc,
            )
        },
        None => unreachable!(),
    }
}
