//! SHOW WATCH of a session that has a watch.
ghost use Rattle.std.specs.Prelude.{◌≡◌, ◌+◌, ◌<◌, ◌≤◌, None, Some};
ghost use Rattle.core_watches.specs.BoundReaders.{OpenWithRowsOfCubes};
ghost use Rattle.core_watches.specs.WatchEnds.{EndsShow};
ghost use Rattle.core_states.specs.ExecutedInCore.{HasOneMore};
ghost use Rattle.core_states.specs.StandingInCore.{HoldsForMode};
ghost use Rattle.core_watches.specs.KeptWatches.{KeepsWatch, kept_on_record};
ghost use Rattle.cube_run.specs.RunRecords.{Says};
ghost use Rattle.cube_run.specs.StepOutcomes.{refused_by_mode};
ghost use Rattle.linked_shards.specs.CellShards.{CoreShardStands};
ghost use Rattle.scripted_pasts.specs.Performed.{WhateverFile};
ghost use Rattle.scripted_pasts.specs.Served.{IsServed, PerformsOverShards};
ghost use Rattle.session_desk.specs.Executed.{IfReplied};
ghost use Rattle.session_replies.specs.Modes.{mode_of};
ghost use Rattle.shard_events.specs.ShardsInRuns.{FitsShard, ShardAnswerSays};
ghost use Rattle.turn_board.specs.Passes.{callers_of};
ghost use mathlib.Core.List.{IsPrefix};
ghost use Rattle.cube_language.specs.declared.statement.Statement.TheVariants as asked;

use crate::following::follow_shown;
use crate::kept::CoreWatch;
use crate::refusing::{give_up, refuse_so};
use board_callers::CellCaller;
use core_program::CoreSize;
use core_states::CoreSession;
use cube_journal::{Refusal, Reply};
use cube_language::MOST_STATEMENTS;
use linked_shards::{CoreShard, ShardCells};
use session_desk::Answered;
use session_watches::{close_holder, open_holder};
use std::alloc::Global;
use std::sync::Wait;
use turn_board::Board;
use watched_queries::other_number;

// Shows the watch at a newer reader, under the session's other holder number, and then closes the older. Where it has no
// memory for that, it closes the newer one, and the watch stays as it was.
fn show_counted<R: Wait, P: CellCaller<ShardCells>>(
    rt: &R,
    board: &Board<ShardCells>,
    caller: &mut P,
    size: &CoreSize,
    session: &CoreSession,
    kept: &mut CoreWatch,
    alloc: Global,
) -> Answered
    requires board { P.calls_on board.now caller.old }
    requires callers { size.now.sessions + 2 + size.now.shards ≤ callers_of board.now }
    requires number { session.now.number ≤ size.now.sessions }
    requires served { IsServed (P.opening caller.old) (P.number caller.old) session.now.number
        size.now.shards }
    requires holds { HoldsForMode FitsShard CoreShardStands ShardAnswerSays (P.opening caller.old)
        (P.number caller.old) session.now.number (P.own caller.old) (mode_of session.now.mode) }
    requires rows { OpenWithRowsOfCubes (P.opening caller.old) }
    requires keeps { KeepsWatch (P.opening caller.old) (P.number caller.old) session.now.number
        (P.own caller.old) kept.old }
    ensures board { P.calls_on board.now caller.new }
    ensures opening { P.opening caller.new ≡ P.opening caller.old }
    ensures number { P.number caller.new ≡ P.number caller.old }
    ensures others { P.others caller.new ≡ P.others caller.old }
    ensures holds { HoldsForMode FitsShard CoreShardStands ShardAnswerSays (P.opening caller.new)
        (P.number caller.new) session.now.number (P.own caller.new) (mode_of session.now.mode) }
    ensures prefix { IsPrefix (P.own caller.old) (P.own caller.new) }
    ensures keeps { KeepsWatch (P.opening caller.new) (P.number caller.new) session.now.number
        (P.own caller.new) kept.new }
    ensures asked { kept.new.asked ≡ kept.old.asked }
    ensures cube { kept.new.cube ≡ kept.old.cube }
    ensures ends { IfReplied result (EndsShow (P.opening caller.old) (P.number caller.old)
        session.now (kept_on_record kept.old) kept.old.cube (P.own caller.old) (P.own caller.new)
        (kept_on_record kept.new)) }
{
    let older = kept.watch.holder;
    let holder = other_number(session.number, older);
    let number = session.statements;
    match open_holder::<CoreShard, R, P>(rt, board, caller, session.number, holder, number) {
        Some(epoch) => match follow_shown(
            rt, board, caller, size, session, kept, holder, epoch, alloc,
        ) {
            Ok(shown) => {
                close_holder::<CoreShard, R, P>(rt, board, caller, session.number, older, number);
                kept.watch = shown.watch;
                Answered::Replied(Reply::Watching {
                    epoch,
                    table: shown.table,
                })
            }
            Err(_) => give_up(rt, board, caller, size, session, holder),
        },
        None => refuse_so(rt, board, caller, size, session, Refusal::NoMemory),
    }
}

/// Shows a watch as a newer reader sees it, under the session's other holder number, and keeps it so. Or the statement is
/// refused, and the watch stays as it was.
pub(crate) fn show_kept<R: Wait, P: CellCaller<ShardCells>>(
    rt: &R,
    board: &Board<ShardCells>,
    caller: &mut P,
    size: &CoreSize,
    session: &mut CoreSession,
    kept: &mut CoreWatch,
    alloc: Global,
) -> Answered
    requires board { P.calls_on board.now caller.old }
    requires callers { size.now.sessions + 2 + size.now.shards ≤ callers_of board.now }
    requires number { session.old.number ≤ size.now.sessions }
    requires served { IsServed (P.opening caller.old) (P.number caller.old) session.old.number
        size.now.shards }
    requires holds { HoldsForMode FitsShard CoreShardStands ShardAnswerSays (P.opening caller.old)
        (P.number caller.old) session.old.number (P.own caller.old) (mode_of session.old.mode) }
    requires rows { OpenWithRowsOfCubes (P.opening caller.old) }
    requires keeps { KeepsWatch (P.opening caller.old) (P.number caller.old) session.old.number
        (P.own caller.old) kept.old }
    requires few { session.old.statements < MOST_STATEMENTS }
    requires counted { session.old.commits ≤ session.old.statements }
    requires may { refused_by_mode (mode_of session.old.mode) asked.ShowWatch ≡ None }
    ensures board { P.calls_on board.now caller.new }
    ensures opening { P.opening caller.new ≡ P.opening caller.old }
    ensures number { P.number caller.new ≡ P.number caller.old }
    ensures others { P.others caller.new ≡ P.others caller.old }
    ensures holds { HoldsForMode FitsShard CoreShardStands ShardAnswerSays (P.opening caller.new)
        (P.number caller.new) session.new.number (P.own caller.new) (mode_of session.new.mode) }
    ensures prefix { IsPrefix (P.own caller.old) (P.own caller.new) }
    ensures more { HasOneMore session.old session.new }
    ensures keeps { KeepsWatch (P.opening caller.new) (P.number caller.new) session.new.number
        (P.own caller.new) kept.new }
    ensures asked { kept.new.asked ≡ kept.old.asked }
    ensures cube { kept.new.cube ≡ kept.old.cube }
    ensures performed { IfReplied result (PerformsOverShards (P.opening caller.old)
        (P.number caller.old) WhateverFile (Says asked.ShowWatch) session.old
        (Some (kept_on_record kept.old)) (P.own caller.old) session.new
        (Some (kept_on_record kept.new)) (P.own caller.new)) }
{
    session.statements += 1;
    show_counted(rt, board, caller, size, session, kept, alloc)
}
