//! WATCH of a session that has no watch.
ghost use Rattle.std.specs.Prelude.{◌≡◌, ◌+◌, ◌<◌, ◌≤◌, ℕ, true, List, IfErr, IfOk, None, OnErr, Some};
ghost use Rattle.core_watches.specs.WatchEnds.{EndsWatch};
ghost use Rattle.core_states.specs.ExecutedInCore.{HasOneMore};
ghost use Rattle.core_states.specs.StandingInCore.{HoldsForMode};
ghost use Rattle.core_watches.specs.BoundQueries.{IsWhyUnfit};
ghost use Rattle.core_watches.specs.KeptWatches.{HoldersHold, KeepsWatch, kept_on_record};
ghost use Rattle.cube_language.specs.Misfits.{FitsCube};
ghost use Rattle.cube_run.specs.RunRecords.{Says, cube_needed};
ghost use Rattle.cube_run.specs.StatementEntries.{is_watch};
ghost use Rattle.cube_run.specs.StepOutcomes.{refused_by_mode};
ghost use Rattle.known_cubes.specs.KnownCubes.{IsToldOfCube};
ghost use Rattle.linked_shards.specs.CellShards.{CoreShardStands};
ghost use Rattle.scripted_pasts.specs.Performed.{WhateverFile};
ghost use Rattle.scripted_pasts.specs.Served.{IsServed, PerformsOverShards};
ghost use Rattle.session_desk.specs.Executed.{IfReplied};
ghost use Rattle.session_replies.specs.Modes.{mode_of};
ghost use Rattle.session_watches.specs.KnownReaders.{HoldersKeep};
ghost use Rattle.shard_events.specs.ShardsInRuns.{FitsShard, ShardAnswerSays};
ghost use Rattle.turn_board.specs.Passes.{callers_of};
ghost use Rattle.watch_holds.specs.HolderStates.{NoReader};
ghost use mathlib.Core.List.{IsPrefix};

use crate::beginning::begin_shown;
use crate::binding::fitting_cube;
use crate::kept::{CoreWatch, Watching};
use crate::refusing::{give_up, refuse_so};
use board_callers::CellCaller;
use core_cubes::{NamedCube, find_named};
use core_program::CoreSize;
use core_states::CoreSession;
use cube_journal::{Refusal, Reply};
use cube_language::{Decl, MOST_STATEMENTS, Misfit, Statement};
use cube_schema::Schema;
use cube_values::CallError;
use linked_shards::{CoreShard, ShardCells};
use query_plan::cube_needed;
use session_desk::Answered;
use session_watches::open_holder;
use std::alloc::Global;
use std::sync::Wait;
use turn_board::Board;
use watched_queries::first_number;

// Sets the watch of a WATCH up that fits its cube: it opens a reader under the session's first holder number, and only then
// copies the names of the cube. Where it has no memory to go on, it closes the reader again.
fn watch_fitting<R: Wait, P: CellCaller<ShardCells>>(
    rt: &R,
    board: &Board<ShardCells>,
    caller: &mut P,
    size: &CoreSize,
    session: &CoreSession,
    statement: Statement,
    place: u32,
    cube: Schema,
    alloc: Global,
) -> Result<Watching, Answered>
    requires board { P.calls_on board.now caller.old }
    requires callers { size.now.sessions + 2 + size.now.shards ≤ callers_of board.now }
    requires number { session.now.number ≤ size.now.sessions }
    requires served { IsServed (P.opening caller.old) (P.number caller.old) session.now.number
        size.now.shards }
    requires holds { HoldsForMode FitsShard CoreShardStands ShardAnswerSays (P.opening caller.old)
        (P.number caller.old) session.now.number (P.own caller.old) (mode_of session.now.mode) }
    requires none { HoldersHold (P.opening caller.old) (P.number caller.old) session.now.number
        (P.own caller.old) NoReader }
    requires form { is_watch statement ≡ true }
    requires fits { FitsCube cube statement }
    requires told { (name : List ℕ) × (cube_needed statement ≡ Some name)
        × IsToldOfCube (P.own caller.old) name place cube }
    ensures board { P.calls_on board.now caller.new }
    ensures opening { P.opening caller.new ≡ P.opening caller.old }
    ensures number { P.number caller.new ≡ P.number caller.old }
    ensures others { P.others caller.new ≡ P.others caller.old }
    ensures holds { HoldsForMode FitsShard CoreShardStands ShardAnswerSays (P.opening caller.new)
        (P.number caller.new) session.now.number (P.own caller.new) (mode_of session.now.mode) }
    ensures prefix { IsPrefix (P.own caller.old) (P.own caller.new) }
    ensures kept { IfOk result (λ w. KeepsWatch (P.opening caller.new) (P.number caller.new)
        session.now.number (P.own caller.new) w.kept) }
    ensures none { OnErr result (HoldersHold (P.opening caller.new) (P.number caller.new)
        session.now.number (P.own caller.new) NoReader) }
    ensures asked { IfOk result (λ w. w.kept.asked ≡ statement) }
    ensures done { IfOk result (λ w. EndsWatch (P.opening caller.old) (P.number caller.old)
        session.now statement cube (P.own caller.old) (P.own caller.new)
        (Some (kept_on_record w.kept)) w.reply) }
    ensures refused { IfErr result (λ answered. IfReplied answered
        (EndsWatch (P.opening caller.old) (P.number caller.old) session.now statement cube
        (P.own caller.old) (P.own caller.new) None)) }
{
    let holder = first_number(session.number);
    let number = session.statements;
    match open_holder::<CoreShard, R, P>(rt, board, caller, session.number, holder, number) {
        Some(epoch) => match begin_shown(
            rt, board, caller, size, session, &statement, place, &cube, holder, epoch, alloc,
        ) {
            Ok(shown) => Ok(Watching {
                reply: Reply::Watching {
                    epoch,
                    table: shown.table,
                },
                kept: CoreWatch {
                    watch: shown.watch,
                    asked: statement,
                    cube,
                },
            }),
            Err(_) => Err(give_up(rt, board, caller, size, session, holder)),
        },
        None => Err(refuse_so(rt, board, caller, size, session, Refusal::NoMemory)),
    }
}

// Refuses a WATCH that does not fit its cube, or for which memory ran out before that was known.
fn refuse_unfit<R: Wait, P: CellCaller<ShardCells>>(
    rt: &R,
    board: &Board<ShardCells>,
    caller: &mut P,
    size: &CoreSize,
    session: &CoreSession,
    statement: &Statement,
    decl: &Decl,
    error: CallError<Misfit>,
) -> Answered
    requires board { P.calls_on board.now caller.old }
    requires callers { size.now.sessions + 2 + size.now.shards ≤ callers_of board.now }
    requires served { IsServed (P.opening caller.old) (P.number caller.old) session.now.number
        size.now.shards }
    requires holds { HoldsForMode FitsShard CoreShardStands ShardAnswerSays (P.opening caller.old)
        (P.number caller.old) session.now.number (P.own caller.old) (mode_of session.now.mode) }
    requires why { IsWhyUnfit decl.now statement.now error }
    ensures board { P.calls_on board.now caller.new }
    ensures opening { P.opening caller.new ≡ P.opening caller.old }
    ensures number { P.number caller.new ≡ P.number caller.old }
    ensures others { P.others caller.new ≡ P.others caller.old }
    ensures holds { HoldsForMode FitsShard CoreShardStands ShardAnswerSays (P.opening caller.new)
        (P.number caller.new) session.now.number (P.own caller.new) (mode_of session.now.mode) }
    ensures prefix { IsPrefix (P.own caller.old) (P.own caller.new) }
    ensures holders { HoldersKeep FitsShard CoreShardStands ShardAnswerSays session.now.number
        (P.opening caller.old) (P.number caller.old) (P.own caller.old) (P.opening caller.new)
        (P.number caller.new) (P.own caller.new) }
    ensures refused { IfReplied result (EndsWatch (P.opening caller.old) (P.number caller.old)
        session.now statement.now decl.now (P.own caller.old) (P.own caller.new) None) }
{
    match error {
        CallError::Fault(misfit) => refuse_so(
            rt,
            board,
            caller,
            size,
            session,
            Refusal::of_misfit(misfit),
        ),
        CallError::NoMemory => refuse_so(rt, board, caller, size, session, Refusal::NoMemory),
    }
}

// Sets the watch up on the cube that was found, where the statement fits it.
fn watch_found<R: Wait, P: CellCaller<ShardCells>>(
    rt: &R,
    board: &Board<ShardCells>,
    caller: &mut P,
    size: &CoreSize,
    session: &CoreSession,
    statement: Statement,
    found: NamedCube,
    alloc: Global,
) -> Result<Watching, Answered>
    requires board { P.calls_on board.now caller.old }
    requires callers { size.now.sessions + 2 + size.now.shards ≤ callers_of board.now }
    requires number { session.now.number ≤ size.now.sessions }
    requires served { IsServed (P.opening caller.old) (P.number caller.old) session.now.number
        size.now.shards }
    requires holds { HoldsForMode FitsShard CoreShardStands ShardAnswerSays (P.opening caller.old)
        (P.number caller.old) session.now.number (P.own caller.old) (mode_of session.now.mode) }
    requires none { HoldersHold (P.opening caller.old) (P.number caller.old) session.now.number
        (P.own caller.old) NoReader }
    requires form { is_watch statement ≡ true }
    requires told { (name : List ℕ) × (cube_needed statement ≡ Some name)
        × IsToldOfCube (P.own caller.old) name found.place found.decl }
    ensures board { P.calls_on board.now caller.new }
    ensures opening { P.opening caller.new ≡ P.opening caller.old }
    ensures number { P.number caller.new ≡ P.number caller.old }
    ensures others { P.others caller.new ≡ P.others caller.old }
    ensures holds { HoldsForMode FitsShard CoreShardStands ShardAnswerSays (P.opening caller.new)
        (P.number caller.new) session.now.number (P.own caller.new) (mode_of session.now.mode) }
    ensures prefix { IsPrefix (P.own caller.old) (P.own caller.new) }
    ensures kept { IfOk result (λ w. KeepsWatch (P.opening caller.new) (P.number caller.new)
        session.now.number (P.own caller.new) w.kept) }
    ensures none { OnErr result (HoldersHold (P.opening caller.new) (P.number caller.new)
        session.now.number (P.own caller.new) NoReader) }
    ensures asked { IfOk result (λ w. w.kept.asked ≡ statement) }
    ensures done { IfOk result (λ w. EndsWatch (P.opening caller.old) (P.number caller.old)
        session.now statement found.decl (P.own caller.old) (P.own caller.new)
        (Some (kept_on_record w.kept)) w.reply) }
    ensures refused { IfErr result (λ answered. IfReplied answered
        (EndsWatch (P.opening caller.old) (P.number caller.old) session.now statement found.decl
        (P.own caller.old) (P.own caller.new) None)) }
{
    match fitting_cube(alloc, &found.decl, &statement) {
        Ok(cube) => {
            let place = found.place;
            watch_fitting(
                rt, board, caller, size, session, statement, place, cube, alloc,
            )
        }
        Err(error) => Err(refuse_unfit(
            rt,
            board,
            caller,
            size,
            session,
            &statement,
            &found.decl,
            error,
        )),
    }
}

/// Sets a watch up: it is shown as a new reader sees it, under the session's first holder number, and kept. Or it is
/// refused, and then the session has no watch, and its holders have no reader.
pub(crate) fn set_watch<R: Wait, P: CellCaller<ShardCells>>(
    rt: &R,
    board: &Board<ShardCells>,
    caller: &mut P,
    size: &CoreSize,
    session: &mut CoreSession,
    statement: Statement,
    alloc: Global,
) -> Result<Watching, Answered>
    requires board { P.calls_on board.now caller.old }
    requires callers { size.now.sessions + 2 + size.now.shards ≤ callers_of board.now }
    requires number { session.old.number ≤ size.now.sessions }
    requires served { IsServed (P.opening caller.old) (P.number caller.old) session.old.number
        size.now.shards }
    requires holds { HoldsForMode FitsShard CoreShardStands ShardAnswerSays (P.opening caller.old)
        (P.number caller.old) session.old.number (P.own caller.old) (mode_of session.old.mode) }
    requires none { HoldersHold (P.opening caller.old) (P.number caller.old) session.old.number
        (P.own caller.old) NoReader }
    requires few { session.old.statements < MOST_STATEMENTS }
    requires counted { session.old.commits ≤ session.old.statements }
    requires form { is_watch statement ≡ true }
    requires may { refused_by_mode (mode_of session.old.mode) statement ≡ None }
    ensures board { P.calls_on board.now caller.new }
    ensures opening { P.opening caller.new ≡ P.opening caller.old }
    ensures number { P.number caller.new ≡ P.number caller.old }
    ensures others { P.others caller.new ≡ P.others caller.old }
    ensures holds { HoldsForMode FitsShard CoreShardStands ShardAnswerSays (P.opening caller.new)
        (P.number caller.new) session.new.number (P.own caller.new) (mode_of session.new.mode) }
    ensures prefix { IsPrefix (P.own caller.old) (P.own caller.new) }
    ensures more { HasOneMore session.old session.new }
    ensures kept { IfOk result (λ w. KeepsWatch (P.opening caller.new) (P.number caller.new)
        session.new.number (P.own caller.new) w.kept) }
    ensures none { OnErr result (HoldersHold (P.opening caller.new) (P.number caller.new)
        session.new.number (P.own caller.new) NoReader) }
    ensures asked { IfOk result (λ w. w.kept.asked ≡ statement) }
    ensures done { IfOk result (λ w. PerformsOverShards (P.opening caller.old)
        (P.number caller.old) WhateverFile (Says statement) session.old None (P.own caller.old)
        session.new (Some (kept_on_record w.kept)) (P.own caller.new) w.reply) }
    ensures refused { IfErr result (λ answered. IfReplied answered
        (PerformsOverShards (P.opening caller.old) (P.number caller.old) WhateverFile
        (Says statement) session.old None (P.own caller.old) session.new None
        (P.own caller.new))) }
{
    let Some(name) = cube_needed(&statement) else {
        unreachable!()
    };
    match find_named::<CoreShard, R, P>(rt, board, caller, session, &statement, name) {
        Ok(found) => watch_found(rt, board, caller, size, session, statement, found, alloc),
        Err(answered) => Err(answered),
    }
}
