//! WATCH and SHOW WATCH of a session that plays its script.
ghost use Rattle.std.specs.Prelude.{◌≡◌, ◌+◌, ◌<◌, ◌≤◌, None};
ghost use Rattle.core_scripts.specs.PlayingSessions.{IsInScript, PlaysOn, Watches};
ghost use Rattle.core_scripts.specs.ToldFiles.{ShelfTold};
ghost use Rattle.core_states.specs.ExecutedInCore.{HasOneMore};
ghost use Rattle.cube_run.specs.RunRecords.{Says};
ghost use Rattle.cube_run.specs.StepOutcomes.{refused_by_mode};
ghost use Rattle.scripted_pasts.specs.Served.{IsServed};
ghost use Rattle.session_desk.specs.Executed.{IfReplied, OnStopped};
ghost use Rattle.session_replies.specs.Modes.{mode_of};
ghost use Rattle.turn_board.specs.Passes.{callers_of};
ghost use mathlib.Core.List.{IsPrefix};
ghost use Rattle.core_watches.specs.BoundReaders.{OpenWithRowsOfCubes};

use crate::player::ScriptPlayer;
use board_callers::CellCaller;
use core_program::CoreSize;
use core_watches::{show_watch, watch};
use cube_language::{MOST_STATEMENTS, Statement};
use linked_shards::ShardCells;
use session_desk::Answered;
use std::alloc::Global;
use std::sync::Wait;
use turn_board::Board;

/// Plays a WATCH or a SHOW WATCH.
pub(crate) fn play_watching<R: Wait, P: CellCaller<ShardCells>>(
    rt: &R,
    board: &Board<ShardCells>,
    caller: &mut P,
    size: &CoreSize,
    player: &mut ScriptPlayer,
    statement: Statement,
    alloc: Global,
) -> Answered
    requires board { P.calls_on board.now caller.old }
    requires callers { size.now.sessions + 2 + size.now.shards ≤ callers_of board.now }
    requires served { IsServed (P.opening caller.old) (P.number caller.old)
        player.old.session.number size.now.shards }
    requires number { player.old.session.number ≤ size.now.sessions }
    requires rows { OpenWithRowsOfCubes (P.opening caller.old) }
    requires few { player.old.session.statements < MOST_STATEMENTS }
    requires form { Watches statement }
    requires may { refused_by_mode (mode_of player.old.session.mode) statement ≡ None }
    requires playing { IsInScript (P.opening caller.old) (P.number caller.old) player.old
        (P.own caller.old) }
    ensures board { P.calls_on board.now caller.new }
    ensures opening { P.opening caller.new ≡ P.opening caller.old }
    ensures number { P.number caller.new ≡ P.number caller.old }
    ensures others { P.others caller.new ≡ P.others caller.old }
    ensures more { HasOneMore player.old.session player.new.session }
    ensures stopped { OnStopped result (IsPrefix (P.own caller.old) (P.own caller.new)) }
    ensures plays { IfReplied result (λ said. (told : ShelfTold)
        → PlaysOn told (P.opening caller.old) (P.number caller.old) player.old (P.own caller.old)
        (Says statement) player.new (P.own caller.new) said) }
{
    match statement {
        Statement::ShowWatch => show_watch(
            rt,
            board,
            caller,
            size,
            &mut player.session,
            &mut player.watch,
            alloc,
        ),
        other => watch(
            rt,
            board,
            caller,
            size,
            &mut player.session,
            &mut player.watch,
            other,
            alloc,
        ),
    }
}
