//! A session opens and closes readers under the numbers of its holders.
ghost use Rattle.std.specs.Prelude.{◌≡◌, ℕ, [], ◌∷◌, ◌++◌, IfNone, IfSome, Option};
ghost use Rattle.std.specs.Option.{option_map_or};
ghost use Rattle.core_program.specs.ClientCalls.{desk_entry};
ghost use Rattle.core_cells.specs.declared.desk.DeskAnswer.TheVariants as answer;
ghost use Rattle.core_cells.specs.declared.desk.DeskCall.TheVariants as call;
ghost use Rattle.core_program.specs.Knowing.{IsClientOf, IsSessionOf};
ghost use Rattle.cube_values.specs.declared.snapshot.Snapshot.{Snapshot};
ghost use Rattle.session_snapshots.specs.KnownHolds.{HoldsReady, HoldsTheSame};
ghost use Rattle.session_watches.specs.KnownReaders.{HoldersGain, HoldersHave, HoldersKeep, opened_reader};
ghost use Rattle.watch_holds.specs.HolderStates.{HasReaderUnder, HeldReaders, IsFreeBeside, IsHolderOf, NoReader, OneReader, TwoReaders};

use crate::answers::{expect_closed, reader_in};
use board_callers::CellCaller;
use core_cells::DeskCall;
use core_program::{CoreCells, call_desk_cell};
use cube_core::LinkedShard;
use std::sync::Wait;
use turn_board::Board;

/// Opens a reader under a holder's number that is free, and gives the epoch up to which it sees: the
/// desk's answer is the reader up to this epoch, and just that is then held. Whatever the session holds
/// under its own number, it holds. None: the desk was out of memory, and the holders hold what they held.
pub fn open_holder<S: LinkedShard, R: Wait, P: CellCaller<CoreCells<S>>>(
    rt: &R,
    board: &Board<CoreCells<S>>,
    caller: &mut P,
    session: u32,
    holder: u32,
    statement: u32,
) -> Option<u64>
    requires board { P.calls_on board.now caller.old }
    requires client { IsClientOf S.fits S.stands S.says (P.opening caller.old)
        (P.number caller.old) session }
    requires session { IsSessionOf S.fits S.stands S.says (P.opening caller.old) session }
    requires ready { (held : Option Snapshot) × HoldsReady S.fits S.stands S.says
        (P.opening caller.old) (P.number caller.old) session (P.own caller.old) held }
    requires holder { IsHolderOf session holder }
    requires free { (readers : HeldReaders) × IsFreeBeside holder readers
        × HoldersHave S.fits S.stands S.says (P.opening caller.old) (P.number caller.old) session
        (P.own caller.old) readers }
    ensures board { P.calls_on board.now caller.new }
    ensures opening { P.opening caller.new ≡ P.opening caller.old }
    ensures number { P.number caller.new ≡ P.number caller.old }
    ensures others { P.others caller.new ≡ P.others caller.old }
    ensures own { P.own caller.new ≡ P.own caller.old
        ++ desk_entry (P.number caller.old) (call.OpenRead holder statement)
        (option_map_or opened_reader result answer.NoMemory) ∷ [] }
    ensures same { HoldsTheSame S.fits S.stands S.says session (P.opening caller.old)
        (P.number caller.old) (P.own caller.old) (P.opening caller.new) (P.number caller.new)
        (P.own caller.new) }
    ensures opened { IfSome result (HoldersGain S.fits S.stands S.says session
        (P.opening caller.old) (P.number caller.old) (P.own caller.old) (P.opening caller.new)
        (P.number caller.new) (P.own caller.new) holder) }
    ensures none { IfNone result (HoldersKeep S.fits S.stands S.says session
        (P.opening caller.old) (P.number caller.old) (P.own caller.old) (P.opening caller.new)
        (P.number caller.new) (P.own caller.new)) }
{
    let open = DeskCall::OpenRead {
        session: holder,
        statement,
    };
    reader_in(call_desk_cell(rt, board, caller, session, open))
}

/// Closes the reader that is held under a holder's number. The holders then hold none, or the other
/// reader. Whatever the session holds under its own number, it holds.
pub fn close_holder<S: LinkedShard, R: Wait, P: CellCaller<CoreCells<S>>>(
    rt: &R,
    board: &Board<CoreCells<S>>,
    caller: &mut P,
    session: u32,
    holder: u32,
    statement: u32,
)
    requires board { P.calls_on board.now caller.old }
    requires client { IsClientOf S.fits S.stands S.says (P.opening caller.old)
        (P.number caller.old) session }
    requires session { IsSessionOf S.fits S.stands S.says (P.opening caller.old) session }
    requires ready { (held : Option Snapshot) × HoldsReady S.fits S.stands S.says
        (P.opening caller.old) (P.number caller.old) session (P.own caller.old) held }
    requires holder { IsHolderOf session holder }
    requires reads { (readers : HeldReaders) × HasReaderUnder holder readers
        × HoldersHave S.fits S.stands S.says (P.opening caller.old) (P.number caller.old) session
        (P.own caller.old) readers }
    ensures board { P.calls_on board.now caller.new }
    ensures opening { P.opening caller.new ≡ P.opening caller.old }
    ensures number { P.number caller.new ≡ P.number caller.old }
    ensures others { P.others caller.new ≡ P.others caller.old }
    ensures own { P.own caller.new ≡ P.own caller.old
        ++ desk_entry (P.number caller.old) (call.CloseRead holder statement) answer.Done ∷ [] }
    ensures same { HoldsTheSame S.fits S.stands S.says session (P.opening caller.old)
        (P.number caller.old) (P.own caller.old) (P.opening caller.new) (P.number caller.new)
        (P.own caller.new) }
    ensures last { (epoch : ℕ) → HoldersHave S.fits S.stands S.says (P.opening caller.old)
        (P.number caller.old) session (P.own caller.old) (OneReader holder epoch)
        → HoldersHave S.fits S.stands S.says (P.opening caller.new) (P.number caller.new) session
        (P.own caller.new) NoReader }
    ensures older { (from newer to : ℕ) → HoldersHave S.fits S.stands S.says
        (P.opening caller.old) (P.number caller.old) session (P.own caller.old)
        (TwoReaders holder from newer to)
        → HoldersHave S.fits S.stands S.says (P.opening caller.new) (P.number caller.new) session
        (P.own caller.new) (OneReader newer to) }
    ensures newer { (older from to : ℕ) → HoldersHave S.fits S.stands S.says
        (P.opening caller.old) (P.number caller.old) session (P.own caller.old)
        (TwoReaders older from holder to)
        → HoldersHave S.fits S.stands S.says (P.opening caller.new) (P.number caller.new) session
        (P.own caller.new) (OneReader older from) }
{
    let close = DeskCall::CloseRead {
        session: holder,
        statement,
    };
    expect_closed(call_desk_cell(rt, board, caller, session, close));
}
