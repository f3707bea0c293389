//! A session looks for a cube, makes one, leaves a note and reads the counters.
ghost use Rattle.std.specs.Prelude.{◌≡◌, [], ◌∷◌, ◌++◌, Option};
ghost use Rattle.std.specs.Option.{option_map_or};
ghost use Rattle.core_program.specs.ClientCalls.{desk_entry};
ghost use Rattle.core_cells.specs.declared.desk.DeskAnswer.TheVariants as answer;
ghost use Rattle.core_cells.specs.declared.desk.DeskCall.TheVariants as call;
ghost use Rattle.core_program.specs.Knowing.{IsClientOf, IsSessionOf};
ghost use Rattle.core_events.specs.Fitting.{CanBeMade};
ghost use Rattle.cube_values.specs.declared.snapshot.Snapshot.{Snapshot};
ghost use Rattle.session_snapshots.specs.KnownHolds.{HoldsNothing, HoldsReady, HoldsTheSame};
ghost use Rattle.session_snapshots.specs.SessionCalls.{MayLeaveNote};

use crate::answers::{counters_in, created_in, found_in, noted_in};
use aosi_desk::{CubeAnswer, CubeFound};
use board_callers::CellCaller;
use core_cells::DeskCall;
use core_program::{CoreCells, call_desk_cell};
use cube_core::LinkedShard;
use cube_journal::{Counters, Note};
use cube_language::Decl;
use cube_values::Text;
use std::sync::Wait;
use turn_board::Board;

/// Looks for the cube of a name, whatever the session holds; it then holds the same. None: the desk
/// was out of memory.
#[inline(always)]
pub fn find_cube<S: LinkedShard, R: Wait, P: CellCaller<CoreCells<S>>>(
    rt: &R,
    board: &Board<CoreCells<S>>,
    caller: &mut P,
    session: u32,
    statement: u32,
    name: Text,
) -> Option<CubeFound>
    requires board { P.calls_on board.now caller.old }
    requires client { IsClientOf S.fits S.stands S.says (P.opening caller.old)
        (P.number caller.old) session }
    requires session { IsSessionOf S.fits S.stands S.says (P.opening caller.old) session }
    requires ready { (held : Option Snapshot) × HoldsReady S.fits S.stands S.says
        (P.opening caller.old) (P.number caller.old) session (P.own caller.old) held }
    ensures board { P.calls_on board.now caller.new }
    ensures opening { P.opening caller.new ≡ P.opening caller.old }
    ensures number { P.number caller.new ≡ P.number caller.old }
    ensures others { P.others caller.new ≡ P.others caller.old }
    ensures own { P.own caller.new ≡ P.own caller.old
        ++ desk_entry (P.number caller.old) (call.FindCube session statement name)
        (option_map_or answer.Found result answer.NoMemory) ∷ [] }
    ensures same { HoldsTheSame S.fits S.stands S.says session (P.opening caller.old)
        (P.number caller.old) (P.own caller.old) (P.opening caller.new) (P.number caller.new)
        (P.own caller.new) }
{
    let find = DeskCall::FindCube {
        session,
        statement,
        name,
    };
    found_in(call_desk_cell(rt, board, caller, session, find))
}

/// Makes a cube for a session that holds nothing, and still does then. None: the desk was out of
/// memory.
pub fn create_cube<S: LinkedShard, R: Wait, P: CellCaller<CoreCells<S>>>(
    rt: &R,
    board: &Board<CoreCells<S>>,
    caller: &mut P,
    session: u32,
    statement: u32,
    decl: Decl,
) -> Option<CubeAnswer>
    requires board { P.calls_on board.now caller.old }
    requires client { IsClientOf S.fits S.stands S.says (P.opening caller.old)
        (P.number caller.old) session }
    requires session { IsSessionOf S.fits S.stands S.says (P.opening caller.old) session }
    requires made { CanBeMade decl }
    requires holds { HoldsNothing S.fits S.stands S.says (P.opening caller.old)
        (P.number caller.old) session (P.own caller.old) }
    ensures board { P.calls_on board.now caller.new }
    ensures opening { P.opening caller.new ≡ P.opening caller.old }
    ensures number { P.number caller.new ≡ P.number caller.old }
    ensures others { P.others caller.new ≡ P.others caller.old }
    ensures own { P.own caller.new ≡ P.own caller.old
        ++ desk_entry (P.number caller.old) (call.CreateCube session statement decl)
        (option_map_or answer.Created result answer.NoMemory) ∷ [] }
    ensures holds { HoldsNothing S.fits S.stands S.says (P.opening caller.new)
        (P.number caller.new) session (P.own caller.new) }
{
    let create = DeskCall::CreateCube {
        session,
        statement,
        decl,
    };
    created_in(call_desk_cell(rt, board, caller, session, create))
}

/// Leaves a note that the session may leave, and shows the counters. Whatever the session holds, it
/// then holds the same. None: the desk was out of memory.
#[inline(always)]
pub fn leave_note<S: LinkedShard, R: Wait, P: CellCaller<CoreCells<S>>>(
    rt: &R,
    board: &Board<CoreCells<S>>,
    caller: &mut P,
    session: u32,
    note: Note,
) -> Option<Counters>
    requires board { P.calls_on board.now caller.old }
    requires client { IsClientOf S.fits S.stands S.says (P.opening caller.old)
        (P.number caller.old) session }
    requires session { IsSessionOf S.fits S.stands S.says (P.opening caller.old) session }
    requires ready { (held : Option Snapshot) × HoldsReady S.fits S.stands S.says
        (P.opening caller.old) (P.number caller.old) session (P.own caller.old) held }
    requires may { MayLeaveNote S.fits S.stands S.says (P.opening caller.old)
        (P.number caller.old) session (P.own caller.old) note }
    ensures board { P.calls_on board.now caller.new }
    ensures opening { P.opening caller.new ≡ P.opening caller.old }
    ensures number { P.number caller.new ≡ P.number caller.old }
    ensures others { P.others caller.new ≡ P.others caller.old }
    ensures own { P.own caller.new ≡ P.own caller.old
        ++ desk_entry (P.number caller.old) (call.Note note)
        (option_map_or answer.Counted result answer.NoMemory) ∷ [] }
    ensures same { HoldsTheSame S.fits S.stands S.says session (P.opening caller.old)
        (P.number caller.old) (P.own caller.old) (P.opening caller.new) (P.number caller.new)
        (P.own caller.new) }
{
    noted_in(call_desk_cell(rt, board, caller, session, DeskCall::Note { note }))
}

/// Reads the counters, whatever the session holds; it then holds the same.
pub fn read_counters<S: LinkedShard, R: Wait, P: CellCaller<CoreCells<S>>>(
    rt: &R,
    board: &Board<CoreCells<S>>,
    caller: &mut P,
    session: u32,
) -> Counters
    requires board { P.calls_on board.now caller.old }
    requires client { IsClientOf S.fits S.stands S.says (P.opening caller.old)
        (P.number caller.old) session }
    requires session { IsSessionOf S.fits S.stands S.says (P.opening caller.old) session }
    ensures board { P.calls_on board.now caller.new }
    ensures opening { P.opening caller.new ≡ P.opening caller.old }
    ensures number { P.number caller.new ≡ P.number caller.old }
    ensures others { P.others caller.new ≡ P.others caller.old }
    ensures own { P.own caller.new ≡ P.own caller.old
        ++ desk_entry (P.number caller.old) call.Counters (answer.Counted result) ∷ [] }
    ensures same { HoldsTheSame S.fits S.stands S.says session (P.opening caller.old)
        (P.number caller.old) (P.own caller.old) (P.opening caller.new) (P.number caller.new)
        (P.own caller.new) }
{
    counters_in(call_desk_cell(rt, board, caller, session, DeskCall::Counters))
}
