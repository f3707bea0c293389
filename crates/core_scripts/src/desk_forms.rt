//! Statements that change no rows and read none.
ghost use Rattle.std.specs.Prelude.{◌≡◌, ◌+◌, ◌<◌, ◌≤◌, None};
ghost use Rattle.core_program.specs.Knowing.{IsClientOf, IsSessionOf};
ghost use Rattle.core_scripts.specs.PlayingSessions.{HasPlainCalls, TouchesNoRows};
ghost use Rattle.core_states.specs.ExecutedInCore.{HasOneMore};
ghost use Rattle.core_states.specs.StandingInCore.{HoldsForMode};
ghost use Rattle.cube_language.specs.Grammar.{IsProper};
ghost use Rattle.cube_language.specs.declared.statement.Statement.TheVariants as asked;
ghost use Rattle.cube_run.specs.StepOutcomes.{refused_by_mode};
ghost use Rattle.linked_shards.specs.CellShards.{CoreShardStands};
ghost use Rattle.scripted_pasts.specs.Performed.{WhateverFile};
ghost use Rattle.scripted_pasts.specs.Served.{IsServed, LeavesItsWatch, PerformsWatchedOverShards};
ghost use Rattle.session_desk.specs.Executed.{IfReplied, OnStopped};
ghost use Rattle.session_replies.specs.Modes.{mode_of};
ghost use Rattle.shard_events.specs.ShardsInRuns.{FitsShard, ShardAnswerSays};
ghost use Rattle.turn_board.specs.Passes.{callers_of};
ghost use mathlib.Core.List.{IsPrefix};

use board_callers::CellCaller;
use core_cubes::create_cube;
use core_program::CoreSize;
use core_states::{CoreSession, begin, show_epochs};
use cube_language::{Decl, MOST_STATEMENTS, Statement};
use kept_holders::other_calls_leave_the_holders;
use linked_shards::{CoreShard, ShardCells};
use scripted_pasts::plain_statements_are_performed;
use session_desk::Answered;
use shard_requests::{commit, flush, purge};
use shard_statements::rollback;
use std::alloc::Global;
use std::sync::Wait;
use turn_board::Board;

// CREATE CUBE.
fn make_cube<R: Wait, P: CellCaller<ShardCells>>(
    rt: &R,
    board: &Board<ShardCells>,
    caller: &mut P,
    session: &mut CoreSession,
    decl: Decl,
    alloc: Global,
) -> Answered
    requires board { P.calls_on board.now caller.old }
    requires client { IsClientOf FitsShard CoreShardStands ShardAnswerSays (P.opening caller.old)
        (P.number caller.old) session.old.number }
    requires session { IsSessionOf FitsShard CoreShardStands ShardAnswerSays (P.opening caller.old)
        session.old.number }
    requires holds { HoldsForMode FitsShard CoreShardStands ShardAnswerSays (P.opening caller.old)
        (P.number caller.old) session.old.number (P.own caller.old) (mode_of session.old.mode) }
    requires few { session.old.statements < MOST_STATEMENTS }
    requires counted { session.old.commits ≤ session.old.statements }
    requires proper { IsProper (asked.CreateCube decl) }
    requires may { refused_by_mode (mode_of session.old.mode) (asked.CreateCube decl) ≡ None }
    ensures board { P.calls_on board.now caller.new }
    ensures opening { P.opening caller.new ≡ P.opening caller.old }
    ensures number { P.number caller.new ≡ P.number caller.old }
    ensures others { P.others caller.new ≡ P.others caller.old }
    ensures holds { HoldsForMode FitsShard CoreShardStands ShardAnswerSays (P.opening caller.new)
        (P.number caller.new) session.new.number (P.own caller.new) (mode_of session.new.mode) }
    ensures readers { LeavesItsWatch (P.opening caller.old) (P.number caller.old)
        session.old.number (P.own caller.old) (P.own caller.new) }
    ensures more { HasOneMore session.old session.new }
    ensures performed { IfReplied result (PerformsWatchedOverShards (P.opening caller.old)
        (P.number caller.old) WhateverFile (asked.CreateCube decl) session.old (P.own caller.old)
        session.new (P.own caller.new)) }
    ensures stopped { OnStopped result (IsPrefix (P.own caller.old) (P.own caller.new)) }
{
    plain_statements_are_performed::<CoreShard>();
    other_calls_leave_the_holders::<CoreShard>();
    create_cube::<CoreShard, R, P>(rt, board, caller, session, decl, alloc)
}

// BEGIN, COMMIT, ROLLBACK, FLUSH, PURGE and SHOW EPOCHS.
fn exec_plain<R: Wait, P: CellCaller<ShardCells>>(
    rt: &R,
    board: &Board<ShardCells>,
    caller: &mut P,
    size: &CoreSize,
    session: &mut CoreSession,
    statement: &Statement,
    alloc: Global,
) -> Answered
    requires board { P.calls_on board.now caller.old }
    requires callers { size.now.sessions + 2 + size.now.shards ≤ callers_of board.now }
    requires served { IsServed (P.opening caller.old) (P.number caller.old) session.old.number
        size.now.shards }
    requires holds { HoldsForMode FitsShard CoreShardStands ShardAnswerSays (P.opening caller.old)
        (P.number caller.old) session.old.number (P.own caller.old) (mode_of session.old.mode) }
    requires few { session.old.statements < MOST_STATEMENTS }
    requires counted { session.old.commits ≤ session.old.statements }
    requires form { HasPlainCalls statement.now }
    requires may { refused_by_mode (mode_of session.old.mode) statement.now ≡ None }
    ensures board { P.calls_on board.now caller.new }
    ensures opening { P.opening caller.new ≡ P.opening caller.old }
    ensures number { P.number caller.new ≡ P.number caller.old }
    ensures others { P.others caller.new ≡ P.others caller.old }
    ensures holds { HoldsForMode FitsShard CoreShardStands ShardAnswerSays (P.opening caller.new)
        (P.number caller.new) session.new.number (P.own caller.new) (mode_of session.new.mode) }
    ensures readers { LeavesItsWatch (P.opening caller.old) (P.number caller.old)
        session.old.number (P.own caller.old) (P.own caller.new) }
    ensures more { HasOneMore session.old session.new }
    ensures performed { IfReplied result (PerformsWatchedOverShards (P.opening caller.old)
        (P.number caller.old) WhateverFile statement.now session.old (P.own caller.old)
        session.new (P.own caller.new)) }
    ensures stopped { OnStopped result (IsPrefix (P.own caller.old) (P.own caller.new)) }
{
    plain_statements_are_performed::<CoreShard>();
    other_calls_leave_the_holders::<CoreShard>();
    match statement {
        Statement::Begin => begin::<CoreShard, R, P>(rt, board, caller, session),
        Statement::Commit => commit(rt, board, caller, size, session, alloc),
        Statement::Rollback => rollback(rt, board, caller, size, session, alloc),
        Statement::Flush => flush(rt, board, caller, size, session),
        Statement::Purge => purge(rt, board, caller, size, session, alloc),
        Statement::ShowEpochs => show_epochs::<CoreShard, R, P>(rt, board, caller, session),
        _ => unreachable!(),
    }
}

/// Executes a statement that changes no rows and reads none: BEGIN, COMMIT, ROLLBACK, FLUSH, PURGE, SHOW EPOCHS or CREATE
/// CUBE.
pub(crate) fn exec_without_rows<R: Wait, P: CellCaller<ShardCells>>(
    rt: &R,
    board: &Board<ShardCells>,
    caller: &mut P,
    size: &CoreSize,
    session: &mut CoreSession,
    statement: Statement,
    alloc: Global,
) -> Answered
    requires board { P.calls_on board.now caller.old }
    requires callers { size.now.sessions + 2 + size.now.shards ≤ callers_of board.now }
    requires served { IsServed (P.opening caller.old) (P.number caller.old) session.old.number
        size.now.shards }
    requires holds { HoldsForMode FitsShard CoreShardStands ShardAnswerSays (P.opening caller.old)
        (P.number caller.old) session.old.number (P.own caller.old) (mode_of session.old.mode) }
    requires few { session.old.statements < MOST_STATEMENTS }
    requires counted { session.old.commits ≤ session.old.statements }
    requires proper { IsProper statement }
    requires form { TouchesNoRows statement }
    requires may { refused_by_mode (mode_of session.old.mode) statement ≡ None }
    ensures board { P.calls_on board.now caller.new }
    ensures opening { P.opening caller.new ≡ P.opening caller.old }
    ensures number { P.number caller.new ≡ P.number caller.old }
    ensures others { P.others caller.new ≡ P.others caller.old }
    ensures holds { HoldsForMode FitsShard CoreShardStands ShardAnswerSays (P.opening caller.new)
        (P.number caller.new) session.new.number (P.own caller.new) (mode_of session.new.mode) }
    ensures readers { LeavesItsWatch (P.opening caller.old) (P.number caller.old)
        session.old.number (P.own caller.old) (P.own caller.new) }
    ensures more { HasOneMore session.old session.new }
    ensures performed { IfReplied result (PerformsWatchedOverShards (P.opening caller.old)
        (P.number caller.old) WhateverFile statement session.old (P.own caller.old)
        session.new (P.own caller.new)) }
    ensures stopped { OnStopped result (IsPrefix (P.own caller.old) (P.own caller.new)) }
{
    match statement {
        Statement::CreateCube { decl } => make_cube(rt, board, caller, session, decl, alloc),
        other => exec_plain(rt, board, caller, size, session, &other, alloc),
    }
}
