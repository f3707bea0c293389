//! A session opens a snapshot.
ghost use Rattle.std.specs.Prelude.{◌≡◌, [], ◌∷◌, ◌++◌, IfNone, IfSome};
ghost use Rattle.std.specs.Option.{option_map_or};
ghost use Rattle.core_program.specs.ClientCalls.{desk_entry};
ghost use Rattle.core_cells.specs.declared.desk.DeskAnswer.TheVariants as answer;
ghost use Rattle.core_cells.specs.declared.desk.DeskCall.TheVariants as call;
ghost use Rattle.core_program.specs.Knowing.{IsClientOf, IsSessionOf};
ghost use Rattle.core_events.specs.Clients.{reader_up_to, writer_at};
ghost use Rattle.session_snapshots.specs.KnownHolds.{HoldsNothing, HoldsReader, HoldsWriter};

use crate::answers::{reader_in, writer_in};
use board_callers::CellCaller;
use core_cells::DeskCall;
use core_program::{CoreCells, call_desk_cell};
use cube_core::LinkedShard;
use cube_values::Snapshot;
use std::sync::Wait;
use turn_board::Board;

/// Opens a writer for a session that holds nothing, which then holds it. None: the desk was out of
/// memory, and it still holds nothing.
#[inline(always)]
pub fn open_writer<S: LinkedShard, R: Wait, P: CellCaller<CoreCells<S>>>(
    rt: &R,
    board: &Board<CoreCells<S>>,
    caller: &mut P,
    session: u32,
    statement: u32,
) -> Option<Snapshot>
    requires board { P.calls_on board.now caller.old }
    requires client { IsClientOf S.fits S.stands S.says (P.opening caller.old)
        (P.number caller.old) session }
    requires session { IsSessionOf S.fits S.stands S.says (P.opening caller.old) session }
    requires holds { HoldsNothing S.fits S.stands S.says (P.opening caller.old)
        (P.number caller.old) session (P.own caller.old) }
    ensures board { P.calls_on board.now caller.new }
    ensures opening { P.opening caller.new ≡ P.opening caller.old }
    ensures number { P.number caller.new ≡ P.number caller.old }
    ensures others { P.others caller.new ≡ P.others caller.old }
    ensures own { P.own caller.new ≡ P.own caller.old
        ++ desk_entry (P.number caller.old) (call.OpenWrite session statement)
        (option_map_or answer.Opened result answer.NoMemory) ∷ [] }
    ensures writer { IfSome result (λ s. s ≡ writer_at s.epoch s.deps) }
    ensures opened { IfSome result (HoldsWriter S.fits S.stands S.says (P.opening caller.new)
        (P.number caller.new) session (P.own caller.new)) }
    ensures none { IfNone result (HoldsNothing S.fits S.stands S.says (P.opening caller.new)
        (P.number caller.new) session (P.own caller.new)) }
{
    let open = DeskCall::OpenWrite { session, statement };
    writer_in(call_desk_cell(rt, board, caller, session, open))
}

/// Opens a reader under its own number for a session that holds nothing, which then holds it. None:
/// the desk was out of memory, and it still holds nothing.
#[inline(always)]
pub fn open_reader<S: LinkedShard, R: Wait, P: CellCaller<CoreCells<S>>>(
    rt: &R,
    board: &Board<CoreCells<S>>,
    caller: &mut P,
    session: u32,
    statement: u32,
) -> Option<Snapshot>
    requires board { P.calls_on board.now caller.old }
    requires client { IsClientOf S.fits S.stands S.says (P.opening caller.old)
        (P.number caller.old) session }
    requires session { IsSessionOf S.fits S.stands S.says (P.opening caller.old) session }
    requires holds { HoldsNothing S.fits S.stands S.says (P.opening caller.old)
        (P.number caller.old) session (P.own caller.old) }
    ensures board { P.calls_on board.now caller.new }
    ensures opening { P.opening caller.new ≡ P.opening caller.old }
    ensures number { P.number caller.new ≡ P.number caller.old }
    ensures others { P.others caller.new ≡ P.others caller.old }
    ensures own { P.own caller.new ≡ P.own caller.old
        ++ desk_entry (P.number caller.old) (call.OpenRead session statement)
        (option_map_or answer.Opened result answer.NoMemory) ∷ [] }
    ensures reader { IfSome result (λ s. s ≡ reader_up_to s.epoch) }
    ensures opened { IfSome result (HoldsReader S.fits S.stands S.says (P.opening caller.new)
        (P.number caller.new) session (P.own caller.new)) }
    ensures none { IfNone result (HoldsNothing S.fits S.stands S.says (P.opening caller.new)
        (P.number caller.new) session (P.own caller.new)) }
{
    let open = DeskCall::OpenRead { session, statement };
    reader_in(call_desk_cell(rt, board, caller, session, open))
}
