//! LOAD.
ghost use Rattle.std.specs.Prelude.{◌≡◌, ◌+◌, ◌<◌, ◌≤◌, None, IfOk, Some};
ghost use mathlib.Core.List.{IsPrefix};
ghost use Rattle.core_changes.specs.ChangesUnderWay.{MayChange};
ghost use Rattle.core_loads.specs.LoadEnds.{AnswersFromShelf};
ghost use Rattle.core_loads.specs.ShelfLoads.{IsFileRead, LoadsRows, path_loaded};
ghost use Rattle.core_states.specs.ExecutedInCore.{HasOneMore};
ghost use Rattle.core_states.specs.StandingInCore.{HoldsForMode};
ghost use Rattle.cube_run.specs.RunRecords.{cube_needed};
ghost use Rattle.cube_run.specs.StepOutcomes.{refused_by_mode};
ghost use Rattle.inserted_rows.specs.RowsInTheEnd.{IsToldOfCubeAt};
ghost use Rattle.linked_shards.specs.CellShards.{CoreShardStands};
ghost use Rattle.shard_events.specs.ShardsInRuns.{FitsShard, ShardAnswerSays};
ghost use Rattle.scripted_pasts.specs.Served.{IsServed, LeavesItsWatch, PerformsWatchedOverShards};
ghost use Rattle.session_desk.specs.Executed.{IfReplied, OnStopped};
ghost use Rattle.session_replies.specs.Modes.{mode_of};
ghost use Rattle.session_texts.specs.ToldTexts.{AreTextsTold};
ghost use Rattle.turn_board.specs.Passes.{callers_of};

use crate::reading::load_bound;
use crate::refusing::refuse_load;
use board_callers::CellCaller;
use core_changes::changes_are_performed;
use core_cubes::{NamedCube, find_named};
use core_program::CoreSize;
use core_states::CoreSession;
use cube_journal::Refusal;
use cube_language::{Decl, MOST_STATEMENTS, Statement};
use cube_schema::{Schema, check};
use cube_values::Text;
use found_cubes::found_cubes_are_on_record;
use linked_shards::{CoreShard, ShardCells};
use outside::Shelf;
use query_plan::cube_needed;
use scripted_pasts::plain_statements_are_performed;
use session_desk::Answered;
use session_texts::{SessionTexts, told_texts_stay_told};
use std::alloc::{AllocError, Global};
use std::sync::Wait;
use turn_board::Board;

// The schema of a declaration. One of the core's cubes can be stored.
fn schema_of(alloc: Global, decl: &Decl) -> Result<Schema, AllocError>
    ensures { IfOk result (λ schema. schema ≡ decl.now) }
{
    match check(alloc, decl) {
        Ok(schema) => Ok(schema),
        Err(_) => Err(AllocError),
    }
}

// A counted LOAD whose cube was found.
fn load_found<R: Wait, P: CellCaller<ShardCells>, F: Shelf>(
    rt: &R,
    board: &Board<ShardCells>,
    caller: &mut P,
    size: &CoreSize,
    session: &mut CoreSession,
    statement: &Statement,
    texts: &mut SessionTexts,
    shelf: &mut F,
    cube: &NamedCube,
    alloc: Global,
) -> Answered
    requires board { P.calls_on board.now caller.old }
    requires callers { size.now.sessions + 2 + size.now.shards ≤ callers_of board.now }
    requires may { MayChange (P.opening caller.old) (P.number caller.old) size.now.shards
        session.old (P.own caller.old) }
    requires texts { AreTextsTold (P.own caller.old) texts.old }
    requires loads { LoadsRows statement.now }
    requires told { IsToldOfCubeAt (P.own caller.old) cube.now.place cube.now.decl }
    ensures board { P.calls_on board.now caller.new }
    ensures opening { P.opening caller.new ≡ P.opening caller.old }
    ensures number { P.number caller.new ≡ P.number caller.old }
    ensures others { P.others caller.new ≡ P.others caller.old }
    ensures texts { AreTextsTold (P.own caller.new) texts.new }
    ensures same { F.told shelf.new ≡ F.told shelf.old }
    ensures later { F.fault_count shelf.old ≤ F.fault_count shelf.new }
    ensures answered { AnswersFromShelf (P.opening caller.old) (P.number caller.old) (record {
      told = F.told shelf.old;
      calls = F.call_list shelf.old;
      new_calls = F.call_list shelf.new;
      faults = F.fault_count shelf.old;
      new_faults = F.fault_count shelf.new;
      absences = F.absence_count shelf.old;
      new_absences = F.absence_count shelf.new;
    })
        session.old statement.now (P.own caller.old) (P.own caller.new) cube.now.place cube.now.decl session.new result }
{
    told_texts_stay_told();
    match schema_of(alloc, &cube.decl) {
        Ok(schema) => load_bound(
            rt, board, caller, size, session, statement, texts, shelf, cube.place, &schema, alloc,
        ),
        Err(_) => {
            let refusal = Refusal::NoMemory;
            refuse_load(rt, board, caller, size, session, statement, refusal)
        }
    }
}

// A LOAD on the cube of a name.
fn load_named<R: Wait, P: CellCaller<ShardCells>, F: Shelf>(
    rt: &R,
    board: &Board<ShardCells>,
    caller: &mut P,
    size: &CoreSize,
    session: &mut CoreSession,
    statement: &Statement,
    texts: &mut SessionTexts,
    shelf: &mut F,
    name: &Text,
    alloc: Global,
) -> Answered
    requires board { P.calls_on board.now caller.old }
    requires callers { size.now.sessions + 2 + size.now.shards ≤ callers_of board.now }
    requires served { IsServed (P.opening caller.old) (P.number caller.old) session.old.number
        size.now.shards }
    requires holds { HoldsForMode FitsShard CoreShardStands ShardAnswerSays (P.opening caller.old)
        (P.number caller.old) session.old.number (P.own caller.old) (mode_of session.old.mode) }
    requires few { session.old.statements < MOST_STATEMENTS }
    requires counted { session.old.commits ≤ session.old.statements }
    requires loads { LoadsRows statement.now }
    requires texts { AreTextsTold (P.own caller.old) texts.old }
    requires may { refused_by_mode (mode_of session.old.mode) statement.now ≡ None }
    requires needs { cube_needed statement.now ≡ Some name.now }
    ensures board { P.calls_on board.now caller.new }
    ensures opening { P.opening caller.new ≡ P.opening caller.old }
    ensures number { P.number caller.new ≡ P.number caller.old }
    ensures others { P.others caller.new ≡ P.others caller.old }
    ensures texts { AreTextsTold (P.own caller.new) texts.new }
    ensures more { HasOneMore session.old session.new }
    ensures readers { LeavesItsWatch (P.opening caller.old) (P.number caller.old) session.old.number
        (P.own caller.old) (P.own caller.new) }
    ensures holds { IfReplied result (λ said. HoldsForMode FitsShard CoreShardStands ShardAnswerSays
        (P.opening caller.new) (P.number caller.new) session.new.number (P.own caller.new)
        (mode_of session.new.mode)) }
    ensures same { F.told shelf.new ≡ F.told shelf.old }
    ensures later { F.fault_count shelf.old ≤ F.fault_count shelf.new }
    ensures performed { IfReplied result (λ said. PerformsWatchedOverShards (P.opening caller.old)
        (P.number caller.old) (IsFileRead (record {
          told = F.told shelf.old;
          calls = F.call_list shelf.old;
          new_calls = F.call_list shelf.new;
          faults = F.fault_count shelf.old;
          new_faults = F.fault_count shelf.new;
          absences = F.absence_count shelf.old;
          new_absences = F.absence_count shelf.new;
        }) (path_loaded statement.now) said) statement.now
        session.old (P.own caller.old) session.new (P.own caller.new) said) }
    ensures stopped { OnStopped result (IsPrefix (P.own caller.old) (P.own caller.new)) }
{
    told_texts_stay_told();
    changes_are_performed();
    found_cubes_are_on_record::<CoreShard>();
    plain_statements_are_performed::<CoreShard>();
    match find_named::<CoreShard, R, P>(rt, board, caller, session, statement, name) {
        Ok(cube) => load_found(
            rt, board, caller, size, session, statement, texts, shelf, &cube, alloc,
        ),
        Err(answered) => answered,
    }
}

/// LOAD: stores the rows among the records of its file, by a transaction of its own, which is committed and after which
/// a round may be due, or inside the one that is open. It is refused where no cube has its name, where its file is not
/// there or is too long, and for want of memory; where the file cannot be read a transaction that is open is taken
/// back, and so is the change where one record more than it allows is bad, a shard has no room for its rows, or memory
/// runs out once it has begun. It stops where there is no memory for what has to follow. Its file on record is the one
/// that the shelf gave.
pub fn load<R: Wait, P: CellCaller<ShardCells>, F: Shelf>(
    rt: &R,
    board: &Board<ShardCells>,
    caller: &mut P,
    size: &CoreSize,
    session: &mut CoreSession,
    statement: &Statement,
    texts: &mut SessionTexts,
    shelf: &mut F,
    alloc: Global,
) -> Answered
    requires board { P.calls_on board.now caller.old }
    requires callers { size.now.sessions + 2 + size.now.shards ≤ callers_of board.now }
    requires served { IsServed (P.opening caller.old) (P.number caller.old) session.old.number
        size.now.shards }
    requires holds { HoldsForMode FitsShard CoreShardStands ShardAnswerSays (P.opening caller.old)
        (P.number caller.old) session.old.number (P.own caller.old) (mode_of session.old.mode) }
    requires few { session.old.statements < MOST_STATEMENTS }
    requires counted { session.old.commits ≤ session.old.statements }
    requires loads { LoadsRows statement.now }
    requires texts { AreTextsTold (P.own caller.old) texts.old }
    requires may { refused_by_mode (mode_of session.old.mode) statement.now ≡ None }
    ensures board { P.calls_on board.now caller.new }
    ensures opening { P.opening caller.new ≡ P.opening caller.old }
    ensures number { P.number caller.new ≡ P.number caller.old }
    ensures others { P.others caller.new ≡ P.others caller.old }
    ensures texts { AreTextsTold (P.own caller.new) texts.new }
    ensures more { HasOneMore session.old session.new }
    ensures readers { LeavesItsWatch (P.opening caller.old) (P.number caller.old) session.old.number
        (P.own caller.old) (P.own caller.new) }
    ensures holds { IfReplied result (λ said. HoldsForMode FitsShard CoreShardStands ShardAnswerSays
        (P.opening caller.new) (P.number caller.new) session.new.number (P.own caller.new)
        (mode_of session.new.mode)) }
    ensures same { F.told shelf.new ≡ F.told shelf.old }
    ensures later { F.fault_count shelf.old ≤ F.fault_count shelf.new }
    ensures performed { IfReplied result (λ said. PerformsWatchedOverShards (P.opening caller.old)
        (P.number caller.old) (IsFileRead (record {
          told = F.told shelf.old;
          calls = F.call_list shelf.old;
          new_calls = F.call_list shelf.new;
          faults = F.fault_count shelf.old;
          new_faults = F.fault_count shelf.new;
          absences = F.absence_count shelf.old;
          new_absences = F.absence_count shelf.new;
        }) (path_loaded statement.now) said) statement.now
        session.old (P.own caller.old) session.new (P.own caller.new) said) }
    ensures stopped { OnStopped result (IsPrefix (P.own caller.old) (P.own caller.new)) }
{
    match cube_needed(statement) {
        Some(name) => {
            load_named(
                rt, board, caller, size, session, statement, texts, shelf, name, alloc,
            )
        },
        None => unreachable!(),
    }
}
