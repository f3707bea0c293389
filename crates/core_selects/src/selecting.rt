//! SELECT.
ghost use Rattle.std.specs.Prelude.{◌≡◌, ◌+◌, ◌<◌, ◌≤◌, true, None, Some, ℕ, List};
ghost use mathlib.Core.List.{IsPrefix};
ghost use Rattle.core_selects.specs.ReadingCalls.{GoesOnByReading};
ghost use Rattle.core_selects.specs.SelectEnds.{EndsSelect};
ghost use Rattle.core_selects.specs.ScanSteps.{IsMisfitIn};
ghost use Rattle.core_states.specs.ExecutedInCore.{HasOneMore};
ghost use Rattle.core_states.specs.StandingInCore.{HoldsForMode};
ghost use Rattle.cube_run.specs.RunRecords.{cube_needed};
ghost use Rattle.cube_run.specs.StatementEntries.{is_select};
ghost use Rattle.cube_run.specs.StepOutcomes.{refused_by_mode};
ghost use Rattle.known_cubes.specs.KnownCubes.{IsToldOfCube};
ghost use Rattle.linked_shards.specs.CellShards.{CoreShardStands};
ghost use Rattle.shard_events.specs.ShardsInRuns.{FitsShard, ShardAnswerSays};
ghost use Rattle.scripted_pasts.specs.Performed.{WhateverFile};
ghost use Rattle.scripted_pasts.specs.Served.{IsServed, LeavesItsWatch, PerformsWatchedOverShards};
ghost use Rattle.session_desk.specs.Executed.{IfReplied, OnStopped};
ghost use Rattle.session_replies.specs.Modes.{mode_of};
ghost use Rattle.turn_board.specs.Passes.{callers_of};

use crate::answering::answer_select;
use crate::binding::fitting_cube;
use crate::{calls_leave_the_watch, selects_are_performed};
use board_callers::CellCaller;
use core_cubes::{NamedCube, find_named};
use core_program::CoreSize;
use core_states::{CoreSession, refuse_plainly};
use cube_journal::Refusal;
use cube_language::{MOST_STATEMENTS, Misfit, Statement};
use cube_values::{CallError, Text};
use linked_shards::{CoreShard, ShardCells};
use query_plan::cube_needed;
use scripted_pasts::plain_statements_are_performed;
use session_desk::Answered;
use std::alloc::Global;
use std::sync::Wait;
use turn_board::Board;

// Refuses a SELECT that fails a test on its cube, or for which memory ran out.
fn refuse_unfit<R: Wait, P: CellCaller<ShardCells>>(
    rt: &R,
    board: &Board<ShardCells>,
    caller: &mut P,
    size: &CoreSize,
    session: &CoreSession,
    statement: &Statement,
    found: &NamedCube,
    error: CallError<Misfit>,
) -> Answered
    requires board { P.calls_on board.now caller.old }
    requires served { IsServed (P.opening caller.old) (P.number caller.old) session.now.number
        size.now.shards }
    requires holds { HoldsForMode FitsShard CoreShardStands ShardAnswerSays (P.opening caller.old)
        (P.number caller.old) session.now.number (P.own caller.old) (mode_of session.now.mode) }
    requires misfit { IsMisfitIn found.now.decl statement.now error }
    ensures board { P.calls_on board.now caller.new }
    ensures opening { P.opening caller.new ≡ P.opening caller.old }
    ensures number { P.number caller.new ≡ P.number caller.old }
    ensures others { P.others caller.new ≡ P.others caller.old }
    ensures holds { HoldsForMode FitsShard CoreShardStands ShardAnswerSays (P.opening caller.new)
        (P.number caller.new) session.now.number (P.own caller.new) (mode_of session.now.mode) }
    ensures more { IsPrefix (P.own caller.old) (P.own caller.new) }
    ensures reads { GoesOnByReading (P.opening caller.old) (P.number caller.old)
        session.now.number (P.own caller.old) (P.own caller.new) }
    ensures ends { IfReplied result (EndsSelect (P.opening caller.old) (P.number caller.old)
        session.now statement.now found.now.place found.now.decl (P.own caller.old)
        (P.own caller.new)) }
{
    match error {
        CallError::Fault(misfit) => refuse_plainly::<CoreShard, R, P>(
            rt,
            board,
            caller,
            session,
            Refusal::of_misfit(misfit),
        ),
        CallError::NoMemory => {
            refuse_plainly::<CoreShard, R, P>(rt, board, caller, session, Refusal::NoMemory)
        }
    }
}

// SELECT from the cube that was found. The statement is counted.
fn select_from<R: Wait, P: CellCaller<ShardCells>>(
    rt: &R,
    board: &Board<ShardCells>,
    caller: &mut P,
    size: &CoreSize,
    session: &CoreSession,
    statement: &Statement,
    found: &NamedCube,
    alloc: Global,
) -> Answered
    requires board { P.calls_on board.now caller.old }
    requires callers { size.now.sessions + 2 + size.now.shards ≤ callers_of board.now }
    requires served { IsServed (P.opening caller.old) (P.number caller.old) session.now.number
        size.now.shards }
    requires holds { HoldsForMode FitsShard CoreShardStands ShardAnswerSays (P.opening caller.old)
        (P.number caller.old) session.now.number (P.own caller.old) (mode_of session.now.mode) }
    requires may { refused_by_mode (mode_of session.now.mode) statement.now ≡ None }
    requires form { is_select statement.now ≡ true }
    requires told { (name : List ℕ)
        × IsToldOfCube (P.own caller.old) name found.now.place found.now.decl }
    ensures board { P.calls_on board.now caller.new }
    ensures opening { P.opening caller.new ≡ P.opening caller.old }
    ensures number { P.number caller.new ≡ P.number caller.old }
    ensures others { P.others caller.new ≡ P.others caller.old }
    ensures holds { HoldsForMode FitsShard CoreShardStands ShardAnswerSays (P.opening caller.new)
        (P.number caller.new) session.now.number (P.own caller.new) (mode_of session.now.mode) }
    ensures more { IsPrefix (P.own caller.old) (P.own caller.new) }
    ensures reads { GoesOnByReading (P.opening caller.old) (P.number caller.old)
        session.now.number (P.own caller.old) (P.own caller.new) }
    ensures ends { IfReplied result (EndsSelect (P.opening caller.old) (P.number caller.old)
        session.now statement.now found.now.place found.now.decl (P.own caller.old)
        (P.own caller.new)) }
{
    match fitting_cube(alloc, &found.decl, statement) {
        Ok(cube) => answer_select(
            rt,
            board,
            caller,
            size,
            session,
            statement,
            found.place,
            &cube,
            alloc,
        ),
        Err(error) => refuse_unfit(rt, board, caller, size, session, statement, found, error),
    }
}

// SELECT from the cube of a name.
fn select_named<R: Wait, P: CellCaller<ShardCells>>(
    rt: &R,
    board: &Board<ShardCells>,
    caller: &mut P,
    size: &CoreSize,
    session: &mut CoreSession,
    statement: &Statement,
    name: &Text,
    alloc: Global,
) -> Answered
    requires board { P.calls_on board.now caller.old }
    requires callers { size.now.sessions + 2 + size.now.shards ≤ callers_of board.now }
    requires served { IsServed (P.opening caller.old) (P.number caller.old) session.old.number
        size.now.shards }
    requires holds { HoldsForMode FitsShard CoreShardStands ShardAnswerSays (P.opening caller.old)
        (P.number caller.old) session.old.number (P.own caller.old) (mode_of session.old.mode) }
    requires few { session.old.statements < MOST_STATEMENTS }
    requires counted { session.old.commits ≤ session.old.statements }
    requires may { refused_by_mode (mode_of session.old.mode) statement.now ≡ None }
    requires form { is_select statement.now ≡ true }
    requires needs { cube_needed statement.now ≡ Some name.now }
    ensures board { P.calls_on board.now caller.new }
    ensures opening { P.opening caller.new ≡ P.opening caller.old }
    ensures number { P.number caller.new ≡ P.number caller.old }
    ensures others { P.others caller.new ≡ P.others caller.old }
    ensures holds { HoldsForMode FitsShard CoreShardStands ShardAnswerSays (P.opening caller.new)
        (P.number caller.new) session.new.number (P.own caller.new) (mode_of session.new.mode) }
    ensures stopped { OnStopped result (IsPrefix (P.own caller.old) (P.own caller.new)) }
    ensures readers { LeavesItsWatch (P.opening caller.old) (P.number caller.old)
        session.old.number (P.own caller.old) (P.own caller.new) }
    ensures more { HasOneMore session.old session.new }
    ensures performed { IfReplied result (PerformsWatchedOverShards (P.opening caller.old)
        (P.number caller.old) WhateverFile statement.now session.old (P.own caller.old)
        session.new (P.own caller.new)) }
{
    calls_leave_the_watch();
    selects_are_performed();
    plain_statements_are_performed::<CoreShard>();
    match find_named::<CoreShard, R, P>(rt, board, caller, session, statement, name) {
        Ok(cube) => select_from(rt, board, caller, size, session, statement, &cube, alloc),
        Err(answered) => answered,
    }
}

/// SELECT: answers the first lines of the table of the rows that it takes, as a reader of the session's own sees them, or
/// inside the transaction that is open with what that has done. It is refused where no cube has the name, for the first
/// test on the cube that it fails, and where memory runs out.
pub fn select<R: Wait, P: CellCaller<ShardCells>>(
    rt: &R,
    board: &Board<ShardCells>,
    caller: &mut P,
    size: &CoreSize,
    session: &mut CoreSession,
    statement: &Statement,
    alloc: Global,
) -> Answered
    requires board { P.calls_on board.now caller.old }
    requires callers { size.now.sessions + 2 + size.now.shards ≤ callers_of board.now }
    requires served { IsServed (P.opening caller.old) (P.number caller.old) session.old.number
        size.now.shards }
    requires holds { HoldsForMode FitsShard CoreShardStands ShardAnswerSays (P.opening caller.old)
        (P.number caller.old) session.old.number (P.own caller.old) (mode_of session.old.mode) }
    requires few { session.old.statements < MOST_STATEMENTS }
    requires counted { session.old.commits ≤ session.old.statements }
    requires may { refused_by_mode (mode_of session.old.mode) statement.now ≡ None }
    requires form { is_select statement.now ≡ true }
    ensures board { P.calls_on board.now caller.new }
    ensures opening { P.opening caller.new ≡ P.opening caller.old }
    ensures number { P.number caller.new ≡ P.number caller.old }
    ensures others { P.others caller.new ≡ P.others caller.old }
    ensures holds { HoldsForMode FitsShard CoreShardStands ShardAnswerSays (P.opening caller.new)
        (P.number caller.new) session.new.number (P.own caller.new) (mode_of session.new.mode) }
    ensures stopped { OnStopped result (IsPrefix (P.own caller.old) (P.own caller.new)) }
    ensures readers { LeavesItsWatch (P.opening caller.old) (P.number caller.old)
        session.old.number (P.own caller.old) (P.own caller.new) }
    ensures more { HasOneMore session.old session.new }
    ensures performed { IfReplied result (PerformsWatchedOverShards (P.opening caller.old)
        (P.number caller.old) WhateverFile statement.now session.old (P.own caller.old)
        session.new (P.own caller.new)) }
{
    match cube_needed(statement) {
        Some(name) => select_named(rt, board, caller, size, session, statement, name, alloc),
        None => unreachable!(),
    }
}
