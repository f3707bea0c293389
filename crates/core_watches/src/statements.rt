//! WATCH and SHOW WATCH.
ghost use Rattle.std.specs.Prelude.{◌≡◌, ◌≢◌, ◌+◌, ◌<◌, ◌≤◌, false, true, None, Option, Some};
ghost use Rattle.core_watches.specs.BoundReaders.{OpenWithRowsOfCubes};
ghost use Rattle.aosi_desk.specs.Desks.{is_cube_code};
ghost use Rattle.core_states.specs.ExecutedInCore.{HasOneMore};
ghost use Rattle.core_states.specs.StandingInCore.{HoldsForMode};
ghost use Rattle.core_watches.specs.KeptWatches.{KeepsWatchOrNone, watch_on_record};
ghost use Rattle.core_watches.specs.declared.kept.CoreWatch.{CoreWatch};
ghost use Rattle.cube_journal.specs.Refusals.{code};
ghost use Rattle.cube_language.specs.declared.statement.Statement.{Statement};
ghost use Rattle.cube_language.specs.declared.statement.Statement.TheVariants as asked;
ghost use Rattle.cube_run.specs.RunRecords.{Says};
ghost use Rattle.cube_run.specs.SessionStates.{KeptWatch};
ghost use Rattle.cube_run.specs.StatementEntries.{is_watch};
ghost use Rattle.cube_run.specs.StepOutcomes.{refused_by_mode, refused_by_watch};
ghost use Rattle.linked_shards.specs.CellShards.{CoreShardStands};
ghost use Rattle.scripted_pasts.specs.Performed.{WhateverFile};
ghost use Rattle.scripted_pasts.specs.Served.{IsServed, PerformsOverShards};
ghost use Rattle.session_desk.specs.Executed.{IfReplied};
ghost use Rattle.session_replies.specs.Modes.{mode_of};
ghost use Rattle.shard_events.specs.ShardsInRuns.{FitsShard, ShardAnswerSays};
ghost use Rattle.turn_board.specs.Passes.{callers_of};
ghost use mathlib.Core.List.{IsPrefix};

use crate::kept::CoreWatch;
use crate::refusing::refuse_so;
use crate::showing::show_kept;
use crate::watching::set_watch;
use board_callers::CellCaller;
use core_program::CoreSize;
use core_states::CoreSession;
use cube_journal::{Refusal, Reply};
use cube_language::{MOST_STATEMENTS, Statement};
use linked_shards::ShardCells;
use session_desk::Answered;
use std::alloc::Global;
use std::sync::Wait;
use turn_board::Board;

// Refuses a statement for the watch that its session has, or for want of one.
fn refuse_by_watch<R: Wait, P: CellCaller<ShardCells>>(
    rt: &R,
    board: &Board<ShardCells>,
    caller: &mut P,
    size: &CoreSize,
    session: &mut CoreSession,
    refusal: Refusal,
) -> Answered
    requires board { P.calls_on board.now caller.old }
    requires callers { size.now.sessions + 2 + size.now.shards ≤ callers_of board.now }
    requires served { IsServed (P.opening caller.old) (P.number caller.old) session.old.number
        size.now.shards }
    requires holds { HoldsForMode FitsShard CoreShardStands ShardAnswerSays (P.opening caller.old)
        (P.number caller.old) session.old.number (P.own caller.old) (mode_of session.old.mode) }
    requires few { session.old.statements < MOST_STATEMENTS }
    requires counted { session.old.commits ≤ session.old.statements }
    requires cubes { is_cube_code (code refusal) ≡ false }
    requires store { code refusal ≢ 17 }
    ensures board { P.calls_on board.now caller.new }
    ensures opening { P.opening caller.new ≡ P.opening caller.old }
    ensures number { P.number caller.new ≡ P.number caller.old }
    ensures others { P.others caller.new ≡ P.others caller.old }
    ensures holds { HoldsForMode FitsShard CoreShardStands ShardAnswerSays (P.opening caller.new)
        (P.number caller.new) session.new.number (P.own caller.new) (mode_of session.new.mode) }
    ensures prefix { IsPrefix (P.own caller.old) (P.own caller.new) }
    ensures more { HasOneMore session.old session.new }
    ensures keeps { (kept : Option CoreWatch) → KeepsWatchOrNone (P.opening caller.old)
        (P.number caller.old) session.old.number (P.own caller.old) kept
        → KeepsWatchOrNone (P.opening caller.new) (P.number caller.new) session.new.number
        (P.own caller.new) kept }
    ensures performed { IfReplied result (λ said. (watch : Option KeptWatch) (s : Statement)
        → refused_by_mode (mode_of session.old.mode) s ≡ None
        → refused_by_watch watch s ≡ Some refusal
        → PerformsOverShards (P.opening caller.old) (P.number caller.old) WhateverFile (Says s)
        session.old watch (P.own caller.old) session.new watch (P.own caller.new) said) }
{
    session.statements += 1;
    refuse_so(rt, board, caller, size, session, refusal)
}

/// WATCH: a session that has no watch is shown it as a new reader sees it, and keeps it. It is refused where the session has
/// one, where no cube has the name, for the first test on the cube that it fails, and where memory runs out; then the
/// session keeps what it had.
pub fn watch<R: Wait, P: CellCaller<ShardCells>>(
    rt: &R,
    board: &Board<ShardCells>,
    caller: &mut P,
    size: &CoreSize,
    session: &mut CoreSession,
    kept: &mut Option<CoreWatch>,
    statement: Statement,
    alloc: Global,
) -> Answered
    requires board { P.calls_on board.now caller.old }
    requires callers { size.now.sessions + 2 + size.now.shards ≤ callers_of board.now }
    requires number { session.old.number ≤ size.now.sessions }
    requires served { IsServed (P.opening caller.old) (P.number caller.old) session.old.number
        size.now.shards }
    requires holds { HoldsForMode FitsShard CoreShardStands ShardAnswerSays (P.opening caller.old)
        (P.number caller.old) session.old.number (P.own caller.old) (mode_of session.old.mode) }
    requires keeps { KeepsWatchOrNone (P.opening caller.old) (P.number caller.old)
        session.old.number (P.own caller.old) kept.old }
    requires few { session.old.statements < MOST_STATEMENTS }
    requires counted { session.old.commits ≤ session.old.statements }
    requires form { is_watch statement ≡ true }
    requires may { refused_by_mode (mode_of session.old.mode) statement ≡ None }
    ensures board { P.calls_on board.now caller.new }
    ensures opening { P.opening caller.new ≡ P.opening caller.old }
    ensures number { P.number caller.new ≡ P.number caller.old }
    ensures others { P.others caller.new ≡ P.others caller.old }
    ensures holds { HoldsForMode FitsShard CoreShardStands ShardAnswerSays (P.opening caller.new)
        (P.number caller.new) session.new.number (P.own caller.new) (mode_of session.new.mode) }
    ensures prefix { IsPrefix (P.own caller.old) (P.own caller.new) }
    ensures more { HasOneMore session.old session.new }
    ensures keeps { KeepsWatchOrNone (P.opening caller.new) (P.number caller.new)
        session.new.number (P.own caller.new) kept.new }
    ensures performed { IfReplied result (PerformsOverShards (P.opening caller.old)
        (P.number caller.old) WhateverFile (Says statement) session.old (watch_on_record kept.old)
        (P.own caller.old) session.new (watch_on_record kept.new) (P.own caller.new)) }
{
    match kept {
        Some(_) => refuse_by_watch(rt, board, caller, size, session, Refusal::WatchOpen),
        None => match set_watch(rt, board, caller, size, session, statement, alloc) {
            Ok(watching) => {
                *kept = Some(watching.kept);
                Answered::Replied(watching.reply)
            }
            Err(answered) => answered,
        },
    }
}

/// SHOW WATCH: a session that has a watch is shown it as a newer reader sees it, and keeps it so. It is refused where the
/// session has none, and where memory runs out; then the session keeps what it had.
pub fn show_watch<R: Wait, P: CellCaller<ShardCells>>(
    rt: &R,
    board: &Board<ShardCells>,
    caller: &mut P,
    size: &CoreSize,
    session: &mut CoreSession,
    kept: &mut Option<CoreWatch>,
    alloc: Global,
) -> Answered
    requires board { P.calls_on board.now caller.old }
    requires callers { size.now.sessions + 2 + size.now.shards ≤ callers_of board.now }
    requires number { session.old.number ≤ size.now.sessions }
    requires served { IsServed (P.opening caller.old) (P.number caller.old) session.old.number
        size.now.shards }
    requires holds { HoldsForMode FitsShard CoreShardStands ShardAnswerSays (P.opening caller.old)
        (P.number caller.old) session.old.number (P.own caller.old) (mode_of session.old.mode) }
    requires rows { OpenWithRowsOfCubes (P.opening caller.old) }
    requires keeps { KeepsWatchOrNone (P.opening caller.old) (P.number caller.old)
        session.old.number (P.own caller.old) kept.old }
    requires few { session.old.statements < MOST_STATEMENTS }
    requires counted { session.old.commits ≤ session.old.statements }
    requires may { refused_by_mode (mode_of session.old.mode) asked.ShowWatch ≡ None }
    ensures board { P.calls_on board.now caller.new }
    ensures opening { P.opening caller.new ≡ P.opening caller.old }
    ensures number { P.number caller.new ≡ P.number caller.old }
    ensures others { P.others caller.new ≡ P.others caller.old }
    ensures holds { HoldsForMode FitsShard CoreShardStands ShardAnswerSays (P.opening caller.new)
        (P.number caller.new) session.new.number (P.own caller.new) (mode_of session.new.mode) }
    ensures prefix { IsPrefix (P.own caller.old) (P.own caller.new) }
    ensures more { HasOneMore session.old session.new }
    ensures keeps { KeepsWatchOrNone (P.opening caller.new) (P.number caller.new)
        session.new.number (P.own caller.new) kept.new }
    ensures performed { IfReplied result (PerformsOverShards (P.opening caller.old)
        (P.number caller.old) WhateverFile (Says asked.ShowWatch) session.old
        (watch_on_record kept.old) (P.own caller.old) session.new (watch_on_record kept.new)
        (P.own caller.new)) }
{
    match kept {
        Some(watch) => show_kept(rt, board, caller, size, session, watch, alloc),
        None => refuse_by_watch(rt, board, caller, size, session, Refusal::NoWatch),
    }
}
