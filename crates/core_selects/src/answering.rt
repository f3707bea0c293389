//! A SELECT that fits its cube is answered.
ghost use Rattle.std.specs.Prelude.{◌≡◌, ◌+◌, ◌≤◌, true, None, ℕ, List};
ghost use mathlib.Core.List.{IsPrefix};
ghost use Rattle.core_selects.specs.ReadingCalls.{GoesOnByReading};
ghost use Rattle.core_selects.specs.SelectEnds.{EndsSelect, HasOpenedReader};
ghost use Rattle.core_events.specs.Clients.{reader_up_to};
ghost use Rattle.core_program.specs.CoreFits.{CoreEntry};
ghost use Rattle.core_selects.specs.ScanSteps.{HasGivenUp};
ghost use Rattle.core_states.specs.StandingInCore.{HoldsForMode};
ghost use Rattle.cube_run.specs.SessionStates.{Idle, Open};
ghost use Rattle.cube_run.specs.StatementEntries.{is_select};
ghost use Rattle.cube_run.specs.StepOutcomes.{refused_by_mode};
ghost use Rattle.cube_values.specs.declared.snapshot.Snapshot.{Snapshot};
ghost use Rattle.known_cubes.specs.KnownCubes.{IsToldOfCube};
ghost use Rattle.session_snapshots.specs.KnownHolds.{HoldsReader};
ghost use Rattle.linked_shards.specs.CellShards.{CoreShardStands};
ghost use Rattle.shard_events.specs.ShardsInRuns.{FitsShard, ShardAnswerSays};
ghost use Rattle.scripted_pasts.specs.Served.{IsServed};
ghost use Rattle.session_desk.specs.Executed.{IfReplied};
ghost use Rattle.session_replies.specs.Modes.{mode_of};
ghost use Rattle.turn_board.specs.Passes.{callers_of};

use crate::reading::read_lines;
use board_callers::CellCaller;
use core_program::CoreSize;
use core_states::{CoreSession, refuse_plainly};
use cube_journal::{Refusal, Reply};
use cube_language::Statement;
use cube_schema::Schema;
use cube_values::Snapshot;
use linked_shards::{CoreShard, ShardCells};
use session_desk::Answered;
use session_replies::SessionMode;
use session_snapshots::{close_reader, open_reader, snapshot_holders_are_ready};
use std::alloc::Global;
use std::sync::Wait;
use turn_board::Board;

// Closes the session's reader, and refuses the statement for want of memory.
fn give_up<R: Wait, P: CellCaller<ShardCells>>(
    rt: &R,
    board: &Board<ShardCells>,
    caller: &mut P,
    size: &CoreSize,
    session: &CoreSession,
) -> Answered
    requires board { P.calls_on board.now caller.old }
    requires served { IsServed (P.opening caller.old) (P.number caller.old) session.now.number
        size.now.shards }
    requires idle { mode_of session.now.mode ≡ Idle }
    requires holds { (s : Snapshot) × HoldsReader FitsShard CoreShardStands ShardAnswerSays
        (P.opening caller.old) (P.number caller.old) session.now.number (P.own caller.old) s }
    ensures board { P.calls_on board.now caller.new }
    ensures opening { P.opening caller.new ≡ P.opening caller.old }
    ensures number { P.number caller.new ≡ P.number caller.old }
    ensures others { P.others caller.new ≡ P.others caller.old }
    ensures holds { HoldsForMode FitsShard CoreShardStands ShardAnswerSays (P.opening caller.new)
        (P.number caller.new) session.now.number (P.own caller.new) (mode_of session.now.mode) }
    ensures more { IsPrefix (P.own caller.old) (P.own caller.new) }
    ensures reads { GoesOnByReading (P.opening caller.old) (P.number caller.old)
        session.now.number (P.own caller.old) (P.own caller.new) }
    ensures ends { IfReplied result (HasGivenUp (P.opening caller.old) (P.number caller.old)
        session.now (P.own caller.old) (P.own caller.new)) }
{
    close_reader::<CoreShard, R, P>(rt, board, caller, session.number, session.statements);
    refuse_plainly::<CoreShard, R, P>(rt, board, caller, session, Refusal::NoMemory)
}

// Answers a SELECT that fits its cube by the reader that the session has opened for it, which is closed then. The names
// of the cube are copied while that is open: what it sees has no others.
fn answer_opened<R: Wait, P: CellCaller<ShardCells>>(
    rt: &R,
    board: &Board<ShardCells>,
    caller: &mut P,
    size: &CoreSize,
    session: &CoreSession,
    statement: &Statement,
    place: u32,
    cube: &Schema,
    reader: &Snapshot,
    alloc: Global,
) -> Answered
    requires board { P.calls_on board.now caller.old }
    requires callers { size.now.sessions + 2 + size.now.shards ≤ callers_of board.now }
    requires served { IsServed (P.opening caller.old) (P.number caller.old) session.now.number
        size.now.shards }
    requires idle { mode_of session.now.mode ≡ Idle }
    requires holds { HoldsReader FitsShard CoreShardStands ShardAnswerSays (P.opening caller.old)
        (P.number caller.old) session.now.number (P.own caller.old) reader.now }
    requires reader { reader.now ≡ reader_up_to reader.now.epoch }
    requires form { is_select statement.now ≡ true }
    requires told { (name : List ℕ) × IsToldOfCube (P.own caller.old) name place cube.now }
    ensures board { P.calls_on board.now caller.new }
    ensures opening { P.opening caller.new ≡ P.opening caller.old }
    ensures number { P.number caller.new ≡ P.number caller.old }
    ensures others { P.others caller.new ≡ P.others caller.old }
    ensures holds { HoldsForMode FitsShard CoreShardStands ShardAnswerSays (P.opening caller.new)
        (P.number caller.new) session.now.number (P.own caller.new) (mode_of session.now.mode) }
    ensures more { IsPrefix (P.own caller.old) (P.own caller.new) }
    ensures reads { GoesOnByReading (P.opening caller.old) (P.number caller.old)
        session.now.number (P.own caller.old) (P.own caller.new) }
    ensures ends { (own : List CoreEntry) → HasOpenedReader (P.opening caller.old)
        (P.number caller.old) session.now.number session.now.statements reader.now.epoch own
        (P.own caller.old) → IfReplied result (EndsSelect (P.opening caller.old)
        (P.number caller.old) session.now statement.now place cube.now own (P.own caller.new)) }
{
    snapshot_holders_are_ready::<CoreShard>();
    let asker = session.number;
    let number = session.statements;
    match read_lines(
        rt, board, caller, size, asker, number, statement, place, cube, reader, alloc,
    ) {
        Ok(table) => {
            close_reader::<CoreShard, R, P>(rt, board, caller, asker, number);
            Answered::Replied(Reply::Rows {
                epoch: reader.epoch,
                table,
            })
        }
        Err(_) => give_up(rt, board, caller, size, session),
    }
}

// Answers a SELECT that fits its cube by a reader of the session's own.
fn answer_alone<R: Wait, P: CellCaller<ShardCells>>(
    rt: &R,
    board: &Board<ShardCells>,
    caller: &mut P,
    size: &CoreSize,
    session: &CoreSession,
    statement: &Statement,
    place: u32,
    cube: &Schema,
    alloc: Global,
) -> Answered
    requires board { P.calls_on board.now caller.old }
    requires callers { size.now.sessions + 2 + size.now.shards ≤ callers_of board.now }
    requires served { IsServed (P.opening caller.old) (P.number caller.old) session.now.number
        size.now.shards }
    requires idle { mode_of session.now.mode ≡ Idle }
    requires holds { HoldsForMode FitsShard CoreShardStands ShardAnswerSays (P.opening caller.old)
        (P.number caller.old) session.now.number (P.own caller.old) (mode_of session.now.mode) }
    requires form { is_select statement.now ≡ true }
    requires told { (name : List ℕ) × IsToldOfCube (P.own caller.old) name place cube.now }
    ensures board { P.calls_on board.now caller.new }
    ensures opening { P.opening caller.new ≡ P.opening caller.old }
    ensures number { P.number caller.new ≡ P.number caller.old }
    ensures others { P.others caller.new ≡ P.others caller.old }
    ensures holds { HoldsForMode FitsShard CoreShardStands ShardAnswerSays (P.opening caller.new)
        (P.number caller.new) session.now.number (P.own caller.new) (mode_of session.now.mode) }
    ensures more { IsPrefix (P.own caller.old) (P.own caller.new) }
    ensures reads { GoesOnByReading (P.opening caller.old) (P.number caller.old)
        session.now.number (P.own caller.old) (P.own caller.new) }
    ensures ends { IfReplied result (EndsSelect (P.opening caller.old) (P.number caller.old)
        session.now statement.now place cube.now (P.own caller.old) (P.own caller.new)) }
{
    match open_reader::<CoreShard, R, P>(rt, board, caller, session.number, session.statements) {
        Some(reader) => answer_opened(
            rt, board, caller, size, session, statement, place, cube, &reader, alloc,
        ),
        None => refuse_plainly::<CoreShard, R, P>(rt, board, caller, session, Refusal::NoMemory),
    }
}

// Answers a SELECT that fits its cube inside the transaction that is open.
fn answer_inside<R: Wait, P: CellCaller<ShardCells>>(
    rt: &R,
    board: &Board<ShardCells>,
    caller: &mut P,
    size: &CoreSize,
    session: &CoreSession,
    writer: &Snapshot,
    statement: &Statement,
    place: u32,
    cube: &Schema,
    alloc: Global,
) -> Answered
    requires board { P.calls_on board.now caller.old }
    requires callers { size.now.sessions + 2 + size.now.shards ≤ callers_of board.now }
    requires served { IsServed (P.opening caller.old) (P.number caller.old) session.now.number
        size.now.shards }
    requires inside { mode_of session.now.mode ≡ Open writer.now }
    requires holds { HoldsForMode FitsShard CoreShardStands ShardAnswerSays (P.opening caller.old)
        (P.number caller.old) session.now.number (P.own caller.old) (mode_of session.now.mode) }
    requires form { is_select statement.now ≡ true }
    requires told { (name : List ℕ) × IsToldOfCube (P.own caller.old) name place cube.now }
    ensures board { P.calls_on board.now caller.new }
    ensures opening { P.opening caller.new ≡ P.opening caller.old }
    ensures number { P.number caller.new ≡ P.number caller.old }
    ensures others { P.others caller.new ≡ P.others caller.old }
    ensures holds { HoldsForMode FitsShard CoreShardStands ShardAnswerSays (P.opening caller.new)
        (P.number caller.new) session.now.number (P.own caller.new) (mode_of session.now.mode) }
    ensures more { IsPrefix (P.own caller.old) (P.own caller.new) }
    ensures reads { GoesOnByReading (P.opening caller.old) (P.number caller.old)
        session.now.number (P.own caller.old) (P.own caller.new) }
    ensures ends { IfReplied result (EndsSelect (P.opening caller.old) (P.number caller.old)
        session.now statement.now place cube.now (P.own caller.old) (P.own caller.new)) }
{
    snapshot_holders_are_ready::<CoreShard>();
    let asker = session.number;
    let number = session.statements;
    match read_lines(
        rt, board, caller, size, asker, number, statement, place, cube, writer, alloc,
    ) {
        Ok(table) => Answered::Replied(Reply::Rows {
            epoch: writer.epoch,
            table,
        }),
        Err(_) => refuse_plainly::<CoreShard, R, P>(rt, board, caller, session, Refusal::NoMemory),
    }
}

/// Answers a SELECT that fits its cube: by a reader of the session's own, or inside the transaction that is open.
pub(crate) fn answer_select<R: Wait, P: CellCaller<ShardCells>>(
    rt: &R,
    board: &Board<ShardCells>,
    caller: &mut P,
    size: &CoreSize,
    session: &CoreSession,
    statement: &Statement,
    place: u32,
    cube: &Schema,
    alloc: Global,
) -> Answered
    requires board { P.calls_on board.now caller.old }
    requires callers { size.now.sessions + 2 + size.now.shards ≤ callers_of board.now }
    requires served { IsServed (P.opening caller.old) (P.number caller.old) session.now.number
        size.now.shards }
    requires holds { HoldsForMode FitsShard CoreShardStands ShardAnswerSays (P.opening caller.old)
        (P.number caller.old) session.now.number (P.own caller.old) (mode_of session.now.mode) }
    requires may { refused_by_mode (mode_of session.now.mode) statement.now ≡ None }
    requires form { is_select statement.now ≡ true }
    requires told { (name : List ℕ) × IsToldOfCube (P.own caller.old) name place cube.now }
    ensures board { P.calls_on board.now caller.new }
    ensures opening { P.opening caller.new ≡ P.opening caller.old }
    ensures number { P.number caller.new ≡ P.number caller.old }
    ensures others { P.others caller.new ≡ P.others caller.old }
    ensures holds { HoldsForMode FitsShard CoreShardStands ShardAnswerSays (P.opening caller.new)
        (P.number caller.new) session.now.number (P.own caller.new) (mode_of session.now.mode) }
    ensures more { IsPrefix (P.own caller.old) (P.own caller.new) }
    ensures reads { GoesOnByReading (P.opening caller.old) (P.number caller.old)
        session.now.number (P.own caller.old) (P.own caller.new) }
    ensures ends { IfReplied result (EndsSelect (P.opening caller.old) (P.number caller.old)
        session.now statement.now place cube.now (P.own caller.old) (P.own caller.new)) }
{
    match &session.mode {
        SessionMode::Idle => answer_alone(
            rt, board, caller, size, session, statement, place, cube, alloc,
        ),
        SessionMode::Open { writer } => answer_inside(
            rt, board, caller, size, session, writer, statement, place, cube, alloc,
        ),
        SessionMode::Aborted { .. } => unreachable!(),
    }
}
