//! The flusher opens a round at the desk, and closes it.
ghost use Rattle.std.specs.Prelude.{◌≡◌, ◌+◌, ℕ, false, [], ◌∷◌, ◌++◌};
ghost use Rattle.std.specs.Option.{option_map_or};
ghost use Rattle.board_callers.specs.Callers.{HasHistoryOf};
ghost use Rattle.core_program.specs.ClientCalls.{desk_entry};
ghost use Rattle.core_cells.specs.declared.desk.DeskAnswer.TheVariants as answer;
ghost use Rattle.core_cells.specs.declared.desk.DeskCall.TheVariants as call;
ghost use Rattle.core_events.specs.Clients.{is_lost_to_disk};
ghost use Rattle.core_program.specs.CoreFits.{FitsOwnCalls};
ghost use Rattle.core_program.specs.Flushing.{IsFlusherOf};
ghost use Rattle.cube_core.specs.CoreSteps.{CoreStep};
ghost use Rattle.flush_loop.specs.MadeRounds.{KnowsBetween, KnowsWithin};
ghost use Rattle.flush_loop.specs.PlainRounds.{KnowsAfterOpening};

use crate::answers::{expect_closed, round_in};
use aosi_desk::{RoundAnswer, RoundEnd};
use board_callers::CellCaller;
use core_cells::DeskCall;
use core_program::{
    CoreCells, CoreSize, answers_fit_their_calls, call_desk_cell, clients_fit_by_what_they_know,
    the_flusher_is_a_client,
};
use cube_core::{CoreCall, LinkedShard};
use std::sync::Wait;
use turn_board::Board;

/// Asks for a round. None: the desk was out of memory. A history has its calls.
pub fn open_round<S: LinkedShard, R: Wait, P: CellCaller<CoreCells<S>>>(
    rt: &R,
    board: &Board<CoreCells<S>>,
    caller: &mut P,
    size: &CoreSize,
) -> Option<RoundAnswer>
    requires board { P.calls_on board.now caller.old }
    requires flusher { IsFlusherOf S.fits S.stands S.says (P.opening caller.old)
        (P.number caller.old) (size.now.sessions + 1) size.now.shards }
    requires between { KnowsBetween S.fits S.stands S.says (P.opening caller.old)
        (P.number caller.old) (size.now.sessions + 1) false (P.own caller.old) }
    ensures board { P.calls_on board.now caller.new }
    ensures opening { P.opening caller.new ≡ P.opening caller.old }
    ensures number { P.number caller.new ≡ P.number caller.old }
    ensures others { P.others caller.new ≡ P.others caller.old }
    ensures own { P.own caller.new ≡ P.own caller.old ++ desk_entry (P.number caller.old)
        call.RoundOpen (option_map_or answer.Round result answer.NoMemory) ∷ [] }
    ensures history { HasHistoryOf (CoreStep S.step) (FitsOwnCalls S.fits S.stands S.says)
        (P.opening caller.new) (P.number caller.new) (P.own caller.new) }
    ensures knows { KnowsAfterOpening S.fits S.stands S.says (P.opening caller.new)
        (P.number caller.new) (size.now.sessions + 1) result (P.own caller.new) }
{
    the_flusher_is_a_client::<S>();
    clients_fit_by_what_they_know::<S>();
    answers_fit_their_calls::<S>();
    round_in(caller.call(rt, board, 0, CoreCall::Desk(DeskCall::RoundOpen)))
}

/// Closes the open round, as it ended.
pub fn close_round<S: LinkedShard, R: Wait, P: CellCaller<CoreCells<S>>>(
    rt: &R,
    board: &Board<CoreCells<S>>,
    caller: &mut P,
    size: &CoreSize,
    epoch: u64,
    how: RoundEnd,
)
    requires board { P.calls_on board.now caller.old }
    requires flusher { IsFlusherOf S.fits S.stands S.says (P.opening caller.old)
        (P.number caller.old) (size.now.sessions + 1) size.now.shards }
    requires within { (from : ℕ) × KnowsWithin S.fits S.stands S.says (P.opening caller.old)
        (P.number caller.old) (size.now.sessions + 1) from epoch (P.own caller.old) }
    ensures board { P.calls_on board.now caller.new }
    ensures opening { P.opening caller.new ≡ P.opening caller.old }
    ensures number { P.number caller.new ≡ P.number caller.old }
    ensures others { P.others caller.new ≡ P.others caller.old }
    ensures own { P.own caller.new ≡ P.own caller.old ++ desk_entry (P.number caller.old)
        (call.RoundClose epoch how) answer.Done ∷ [] }
    ensures between { KnowsBetween S.fits S.stands S.says (P.opening caller.new)
        (P.number caller.new) (size.now.sessions + 1) (is_lost_to_disk how) (P.own caller.new) }
{
    the_flusher_is_a_client::<S>();
    let close = DeskCall::RoundClose { epoch, end: how };
    expect_closed(call_desk_cell(rt, board, caller, size.sessions + 1, close));
}
