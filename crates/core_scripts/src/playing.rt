//! Each statement of a session that plays its script.
ghost use Rattle.core_loads.specs.ShelfLoads.{LoadsRows};
ghost use Rattle.counted_scripts.specs.CountedLoads.{CountsFor};
ghost use Rattle.std.specs.Prelude.{◌≡◌, ◌+◌, ◌<◌, ◌≤◌, None, Some};
ghost use Rattle.core_scripts.specs.PlayingSessions.{IsInScript, PlaysOn};
ghost use Rattle.script_sentences.specs.GivenTexts.{IsProperSaid};
ghost use Rattle.core_scripts.specs.ToldFiles.{ShelfTold};
ghost use Rattle.core_states.specs.ExecutedInCore.{HasOneMore};
ghost use Rattle.cube_run.specs.RunRecords.{Says, SaysNone};
ghost use Rattle.cube_run.specs.StepOutcomes.{refused_by_mode};
ghost use Rattle.core_program.specs.Knowing.{IsClientOf, IsSessionOf};
ghost use Rattle.linked_shards.specs.CellShards.{CoreShardStands};
ghost use Rattle.shard_events.specs.ShardsInRuns.{FitsShard, ShardAnswerSays};
ghost use Rattle.scripted_pasts.specs.Served.{IsServed};
ghost use Rattle.session_desk.specs.FileReplies.{IsRefusedUnread};
ghost use Rattle.session_desk.specs.Executed.{IfReplied, OnStopped};
ghost use Rattle.session_replies.specs.Modes.{mode_of};
ghost use Rattle.turn_board.specs.Passes.{callers_of};
ghost use mathlib.Core.List.{IsPrefix};
ghost use Rattle.core_watches.specs.BoundReaders.{OpenWithRowsOfCubes};
ghost use Rattle.cube_language.specs.Grammar.{IsProper};
ghost use Rattle.loaded_files.specs.CountedReplies.{CountsAbsence, CountsFault};
ghost use Rattle.script_sentences.specs.Sentences.{sentence_of};

use crate::player::ScriptPlayer;
use crate::statements::{play_on_rows, play_without_rows};
use crate::watching::play_watching;
use board_callers::CellCaller;
use core_loads::load;
use core_program::CoreSize;
use core_states::{refuse_by_mode, refuse_syntax};
use cube_journal::Refusal;
use cube_language::{MOST_STATEMENTS, Statement, Syntax};
use kept_holders::other_calls_leave_the_holders;
use linked_shards::{CoreShard, ShardCells};
use outside::Shelf;
use script_sentences::Said;
use session_desk::Answered;
use session_replies::refused_by_mode;
use std::alloc::Global;
use std::sync::Wait;
use turn_board::Board;

// Plays a LOAD, whose file it reads from the shelf.
fn play_load<R: Wait, P: CellCaller<ShardCells>, H: Shelf>(
    rt: &R,
    board: &Board<ShardCells>,
    caller: &mut P,
    size: &CoreSize,
    player: &mut ScriptPlayer,
    statement: &Statement,
    shelf: &mut H,
    alloc: Global,
) -> Answered
    requires board { P.calls_on board.now caller.old }
    requires callers { size.now.sessions + 2 + size.now.shards ≤ callers_of board.now }
    requires served { IsServed (P.opening caller.old) (P.number caller.old)
        player.old.session.number size.now.shards }
    requires few { player.old.session.statements < MOST_STATEMENTS }
    requires form { LoadsRows statement.now }
    requires may { refused_by_mode (mode_of player.old.session.mode) statement.now ≡ None }
    requires playing { IsInScript (P.opening caller.old) (P.number caller.old) player.old
        (P.own caller.old) }
    ensures board { P.calls_on board.now caller.new }
    ensures opening { P.opening caller.new ≡ P.opening caller.old }
    ensures number { P.number caller.new ≡ P.number caller.old }
    ensures others { P.others caller.new ≡ P.others caller.old }
    ensures more { HasOneMore player.old.session player.new.session }
    ensures stopped { OnStopped result (IsPrefix (P.own caller.old) (P.own caller.new)) }
    ensures same { H.told shelf.new ≡ H.told shelf.old }
    ensures later { H.fault_count shelf.old ≤ H.fault_count shelf.new }
    ensures faults { IfReplied result (λ said. CountsFor CountsFault (Says statement.now) said
        (H.fault_count shelf.old) (H.fault_count shelf.new)) }
    ensures absences { IfReplied result (λ said. CountsFor CountsAbsence (Says statement.now) said
        (H.absence_count shelf.old) (H.absence_count shelf.new)) }
    ensures plays { IfReplied result (PlaysOn (H.told shelf.old) (P.opening caller.old)
        (P.number caller.old) player.old (P.own caller.old) (Says statement.now) player.new (P.own caller.new)) }
{
    load(
        rt,
        board,
        caller,
        size,
        &mut player.session,
        statement,
        &mut player.texts,
        shelf,
        alloc,
    )
}

// Plays a statement that its session's mode does not refuse, by its form.
fn play_allowed<R: Wait, P: CellCaller<ShardCells>, H: Shelf>(
    rt: &R,
    board: &Board<ShardCells>,
    caller: &mut P,
    size: &CoreSize,
    player: &mut ScriptPlayer,
    statement: Statement,
    shelf: &mut H,
    alloc: Global,
) -> Answered
    requires board { P.calls_on board.now caller.old }
    requires callers { size.now.sessions + 2 + size.now.shards ≤ callers_of board.now }
    requires served { IsServed (P.opening caller.old) (P.number caller.old)
        player.old.session.number size.now.shards }
    requires number { player.old.session.number ≤ size.now.sessions }
    requires rows { OpenWithRowsOfCubes (P.opening caller.old) }
    requires few { player.old.session.statements < MOST_STATEMENTS }
    requires proper { IsProper statement }
    requires may { refused_by_mode (mode_of player.old.session.mode) statement ≡ None }
    requires playing { IsInScript (P.opening caller.old) (P.number caller.old) player.old
        (P.own caller.old) }
    ensures board { P.calls_on board.now caller.new }
    ensures opening { P.opening caller.new ≡ P.opening caller.old }
    ensures number { P.number caller.new ≡ P.number caller.old }
    ensures others { P.others caller.new ≡ P.others caller.old }
    ensures more { HasOneMore player.old.session player.new.session }
    ensures stopped { OnStopped result (IsPrefix (P.own caller.old) (P.own caller.new)) }
    ensures same { H.told shelf.new ≡ H.told shelf.old }
    ensures later { H.fault_count shelf.old ≤ H.fault_count shelf.new }
    ensures faults { IfReplied result (λ said. CountsFor CountsFault (Says statement) said
        (H.fault_count shelf.old) (H.fault_count shelf.new)) }
    ensures absences { IfReplied result (λ said. CountsFor CountsAbsence (Says statement) said
        (H.absence_count shelf.old) (H.absence_count shelf.new)) }
    ensures plays { IfReplied result (PlaysOn (H.told shelf.old) (P.opening caller.old)
        (P.number caller.old) player.old (P.own caller.old) (Says statement) player.new (P.own caller.new)) }
{
    match &statement {
        Statement::Load { .. } => {
            play_load(rt, board, caller, size, player, &statement, shelf, alloc)
        }
        Statement::Select { .. } | Statement::Insert { .. } | Statement::Delete { .. } => {
            play_on_rows(rt, board, caller, size, player, &statement, alloc)
        }
        Statement::Watch { .. } | Statement::ShowWatch => {
            play_watching(rt, board, caller, size, player, statement, alloc)
        }
        Statement::Begin
        | Statement::Commit
        | Statement::Rollback
        | Statement::Flush
        | Statement::Purge
        | Statement::ShowEpochs
        | Statement::CreateCube { .. } => {
            play_without_rows(rt, board, caller, size, player, statement, alloc)
        }
    }
}

// A statement that its session's mode refuses.
fn play_refused<R: Wait, P: CellCaller<ShardCells>>(
    rt: &R,
    board: &Board<ShardCells>,
    caller: &mut P,
    player: &mut ScriptPlayer,
    statement: &Statement,
    refusal: Refusal,
) -> Answered
    requires board { P.calls_on board.now caller.old }
    requires client { IsClientOf FitsShard CoreShardStands ShardAnswerSays (P.opening caller.old)
        (P.number caller.old) player.old.session.number }
    requires session { IsSessionOf FitsShard CoreShardStands ShardAnswerSays (P.opening caller.old)
        player.old.session.number }
    requires few { player.old.session.statements < MOST_STATEMENTS }
    requires refused { refused_by_mode (mode_of player.old.session.mode) statement.now ≡ Some refusal }
    requires playing { IsInScript (P.opening caller.old) (P.number caller.old) player.old
        (P.own caller.old) }
    ensures board { P.calls_on board.now caller.new }
    ensures opening { P.opening caller.new ≡ P.opening caller.old }
    ensures number { P.number caller.new ≡ P.number caller.old }
    ensures others { P.others caller.new ≡ P.others caller.old }
    ensures more { HasOneMore player.old.session player.new.session }
    ensures stopped { OnStopped result (IsPrefix (P.own caller.old) (P.own caller.new)) }
    ensures unread { IfReplied result IsRefusedUnread }
    ensures plays { IfReplied result (λ said. (told : ShelfTold)
        → PlaysOn told (P.opening caller.old) (P.number caller.old) player.old (P.own caller.old)
        (Says statement.now) player.new (P.own caller.new) said) }
{
    other_calls_leave_the_holders::<CoreShard>();
    refuse_by_mode::<CoreShard, R, P>(rt, board, caller, &mut player.session, refusal)
}

/// Plays a statement: what its session's mode refuses is refused so.
pub(crate) fn play_statement<R: Wait, P: CellCaller<ShardCells>, H: Shelf>(
    rt: &R,
    board: &Board<ShardCells>,
    caller: &mut P,
    size: &CoreSize,
    player: &mut ScriptPlayer,
    statement: Statement,
    shelf: &mut H,
    alloc: Global,
) -> Answered
    requires board { P.calls_on board.now caller.old }
    requires callers { size.now.sessions + 2 + size.now.shards ≤ callers_of board.now }
    requires served { IsServed (P.opening caller.old) (P.number caller.old)
        player.old.session.number size.now.shards }
    requires number { player.old.session.number ≤ size.now.sessions }
    requires rows { OpenWithRowsOfCubes (P.opening caller.old) }
    requires few { player.old.session.statements < MOST_STATEMENTS }
    requires proper { IsProper statement }
    requires playing { IsInScript (P.opening caller.old) (P.number caller.old) player.old
        (P.own caller.old) }
    ensures board { P.calls_on board.now caller.new }
    ensures opening { P.opening caller.new ≡ P.opening caller.old }
    ensures number { P.number caller.new ≡ P.number caller.old }
    ensures others { P.others caller.new ≡ P.others caller.old }
    ensures more { HasOneMore player.old.session player.new.session }
    ensures stopped { OnStopped result (IsPrefix (P.own caller.old) (P.own caller.new)) }
    ensures same { H.told shelf.new ≡ H.told shelf.old }
    ensures later { H.fault_count shelf.old ≤ H.fault_count shelf.new }
    ensures faults { IfReplied result (λ said. CountsFor CountsFault (Says statement) said
        (H.fault_count shelf.old) (H.fault_count shelf.new)) }
    ensures absences { IfReplied result (λ said. CountsFor CountsAbsence (Says statement) said
        (H.absence_count shelf.old) (H.absence_count shelf.new)) }
    ensures plays { IfReplied result (PlaysOn (H.told shelf.old) (P.opening caller.old)
        (P.number caller.old) player.old (P.own caller.old) (Says statement) player.new (P.own caller.new)) }
{
    match refused_by_mode(&player.session.mode, &statement) {
        Some(refusal) => play_refused(rt, board, caller, player, &statement, refusal),
        None => play_allowed(rt, board, caller, size, player, statement, shelf, alloc),
    }
}

// Refuses a text that spells no statement.
fn play_nothing<R: Wait, P: CellCaller<ShardCells>>(
    rt: &R,
    board: &Board<ShardCells>,
    caller: &mut P,
    player: &mut ScriptPlayer,
    fault: Syntax,
) -> Answered
    requires board { P.calls_on board.now caller.old }
    requires client { IsClientOf FitsShard CoreShardStands ShardAnswerSays (P.opening caller.old)
        (P.number caller.old) player.old.session.number }
    requires session { IsSessionOf FitsShard CoreShardStands ShardAnswerSays (P.opening caller.old)
        player.old.session.number }
    requires few { player.old.session.statements < MOST_STATEMENTS }
    requires playing { IsInScript (P.opening caller.old) (P.number caller.old) player.old
        (P.own caller.old) }
    ensures board { P.calls_on board.now caller.new }
    ensures opening { P.opening caller.new ≡ P.opening caller.old }
    ensures number { P.number caller.new ≡ P.number caller.old }
    ensures others { P.others caller.new ≡ P.others caller.old }
    ensures more { HasOneMore player.old.session player.new.session }
    ensures stopped { OnStopped result (IsPrefix (P.own caller.old) (P.own caller.new)) }
    ensures plays { IfReplied result (λ said. (told : ShelfTold)
        → PlaysOn told (P.opening caller.old) (P.number caller.old) player.old (P.own caller.old)
        (SaysNone fault.at) player.new (P.own caller.new) said) }
{
    other_calls_leave_the_holders::<CoreShard>();
    refuse_syntax::<CoreShard, R, P>(rt, board, caller, &mut player.session, fault)
}

/// Plays what a text of the script says.
pub(crate) fn play_said<R: Wait, P: CellCaller<ShardCells>, H: Shelf>(
    rt: &R,
    board: &Board<ShardCells>,
    caller: &mut P,
    size: &CoreSize,
    player: &mut ScriptPlayer,
    text: Said,
    shelf: &mut H,
    alloc: Global,
) -> Answered
    requires board { P.calls_on board.now caller.old }
    requires callers { size.now.sessions + 2 + size.now.shards ≤ callers_of board.now }
    requires served { IsServed (P.opening caller.old) (P.number caller.old)
        player.old.session.number size.now.shards }
    requires number { player.old.session.number ≤ size.now.sessions }
    requires rows { OpenWithRowsOfCubes (P.opening caller.old) }
    requires few { player.old.session.statements < MOST_STATEMENTS }
    requires proper { IsProperSaid text }
    requires playing { IsInScript (P.opening caller.old) (P.number caller.old) player.old
        (P.own caller.old) }
    ensures board { P.calls_on board.now caller.new }
    ensures opening { P.opening caller.new ≡ P.opening caller.old }
    ensures number { P.number caller.new ≡ P.number caller.old }
    ensures others { P.others caller.new ≡ P.others caller.old }
    ensures more { HasOneMore player.old.session player.new.session }
    ensures stopped { OnStopped result (IsPrefix (P.own caller.old) (P.own caller.new)) }
    ensures same { H.told shelf.new ≡ H.told shelf.old }
    ensures later { H.fault_count shelf.old ≤ H.fault_count shelf.new }
    ensures faults { IfReplied result (λ said. CountsFor CountsFault (sentence_of text) said
        (H.fault_count shelf.old) (H.fault_count shelf.new)) }
    ensures absences { IfReplied result (λ said. CountsFor CountsAbsence (sentence_of text) said
        (H.absence_count shelf.old) (H.absence_count shelf.new)) }
    ensures plays { IfReplied result (PlaysOn (H.told shelf.old) (P.opening caller.old)
        (P.number caller.old) player.old (P.own caller.old) (sentence_of text) player.new (P.own caller.new)) }
{
    match text {
        Said::Statement { statement } => {
            play_statement(rt, board, caller, size, player, statement, shelf, alloc)
        }
        Said::Nothing { fault } => play_nothing(rt, board, caller, player, fault),
    }
}
