//! A session ends the snapshot that it holds.
ghost use Rattle.std.specs.Prelude.{◌≡◌, [], ◌∷◌, ◌++◌};
ghost use Rattle.core_program.specs.ClientCalls.{desk_entry};
ghost use Rattle.core_cells.specs.declared.desk.DeskAnswer.TheVariants as answer;
ghost use Rattle.core_cells.specs.declared.desk.DeskCall.TheVariants as call;
ghost use Rattle.core_program.specs.Knowing.{IsClientOf, IsSessionOf};
ghost use Rattle.cube_values.specs.declared.snapshot.Snapshot.{Snapshot};
ghost use Rattle.session_snapshots.specs.KnownHolds.{HoldsNothing, HoldsReader, HoldsRolledBack, HoldsWriter};

use crate::answers::expect_done;
use board_callers::CellCaller;
use core_cells::DeskCall;
use core_program::{CoreCells, call_desk_cell};
use cube_core::LinkedShard;
use cube_journal::AbortCause;
use std::sync::Wait;
use turn_board::Board;

/// Commits the writer that the session holds. It then holds nothing.
#[inline(always)]
pub fn commit<S: LinkedShard, R: Wait, P: CellCaller<CoreCells<S>>>(
    rt: &R,
    board: &Board<CoreCells<S>>,
    caller: &mut P,
    session: u32,
    statement: u32,
)
    requires board { P.calls_on board.now caller.old }
    requires client { IsClientOf S.fits S.stands S.says (P.opening caller.old)
        (P.number caller.old) session }
    requires session { IsSessionOf S.fits S.stands S.says (P.opening caller.old) session }
    requires holds { (s : Snapshot) × HoldsWriter S.fits S.stands S.says (P.opening caller.old)
        (P.number caller.old) session (P.own caller.old) s }
    ensures board { P.calls_on board.now caller.new }
    ensures opening { P.opening caller.new ≡ P.opening caller.old }
    ensures number { P.number caller.new ≡ P.number caller.old }
    ensures others { P.others caller.new ≡ P.others caller.old }
    ensures own { P.own caller.new ≡ P.own caller.old
        ++ desk_entry (P.number caller.old) (call.Commit session statement) answer.Done ∷ [] }
    ensures holds { HoldsNothing S.fits S.stands S.says (P.opening caller.new)
        (P.number caller.new) session (P.own caller.new) }
{
    let end = DeskCall::Commit { session, statement };
    expect_done(call_desk_cell(rt, board, caller, session, end));
}

/// Closes the reader that the session holds. It then holds nothing.
pub fn close_reader<S: LinkedShard, R: Wait, P: CellCaller<CoreCells<S>>>(
    rt: &R,
    board: &Board<CoreCells<S>>,
    caller: &mut P,
    session: u32,
    statement: u32,
)
    requires board { P.calls_on board.now caller.old }
    requires client { IsClientOf S.fits S.stands S.says (P.opening caller.old)
        (P.number caller.old) session }
    requires session { IsSessionOf S.fits S.stands S.says (P.opening caller.old) session }
    requires holds { (s : Snapshot) × HoldsReader S.fits S.stands S.says (P.opening caller.old)
        (P.number caller.old) session (P.own caller.old) s }
    ensures board { P.calls_on board.now caller.new }
    ensures opening { P.opening caller.new ≡ P.opening caller.old }
    ensures number { P.number caller.new ≡ P.number caller.old }
    ensures others { P.others caller.new ≡ P.others caller.old }
    ensures own { P.own caller.new ≡ P.own caller.old
        ++ desk_entry (P.number caller.old) (call.CloseRead session statement) answer.Done ∷ [] }
    ensures holds { HoldsNothing S.fits S.stands S.says (P.opening caller.new)
        (P.number caller.new) session (P.own caller.new) }
{
    let end = DeskCall::CloseRead { session, statement };
    expect_done(call_desk_cell(rt, board, caller, session, end));
}

/// Ends the writer of a session that has rolled back on every shard. It then holds nothing.
pub fn end_writer<S: LinkedShard, R: Wait, P: CellCaller<CoreCells<S>>>(
    rt: &R,
    board: &Board<CoreCells<S>>,
    caller: &mut P,
    session: u32,
    statement: u32,
    cause: AbortCause,
)
    requires board { P.calls_on board.now caller.old }
    requires client { IsClientOf S.fits S.stands S.says (P.opening caller.old)
        (P.number caller.old) session }
    requires session { IsSessionOf S.fits S.stands S.says (P.opening caller.old) session }
    requires holds { (s : Snapshot) × HoldsRolledBack S.fits S.stands S.says (P.opening caller.old)
        (P.number caller.old) session (P.own caller.old) s }
    ensures board { P.calls_on board.now caller.new }
    ensures opening { P.opening caller.new ≡ P.opening caller.old }
    ensures number { P.number caller.new ≡ P.number caller.old }
    ensures others { P.others caller.new ≡ P.others caller.old }
    ensures own { P.own caller.new ≡ P.own caller.old
        ++ desk_entry (P.number caller.old) (call.AbortEnd session statement cause)
        answer.Done ∷ [] }
    ensures holds { HoldsNothing S.fits S.stands S.says (P.opening caller.new)
        (P.number caller.new) session (P.own caller.new) }
{
    let end = DeskCall::AbortEnd {
        session,
        statement,
        cause,
    };
    expect_done(call_desk_cell(rt, board, caller, session, end));
}
