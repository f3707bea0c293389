//! The rounds of a core without a store.
ghost use Rattle.std.specs.Prelude.{◌≡◌, ◌+◌, false, ◌++◌, Some};
ghost use Rattle.core_program.specs.Flushing.{IsFlusherOf};
ghost use Rattle.flush_loop.specs.MadeRounds.{KnowsBetween};
ghost use Rattle.flush_loop.specs.PlainRounds.{HasLostNone, KnowsAfterOpening, closing_entries, result_of_opening};

use crate::desk::{close_round, open_round};
use crate::maker::MakesRounds;
use crate::round_result::RoundResult;
use aosi_desk::{RoundAnswer, RoundEnd};
use board_callers::CellCaller;
use core_program::{CoreCells, CoreSize};
use cube_core::LinkedShard;
use std::sync::Wait;
use turn_board::Board;

/// Makes the rounds of a core without a store: there is nothing to write, so each round that is opened
/// is closed as safe, and none is lost to a disk.
#[derive(Clone, Copy, Debug)]
pub struct NoStore;

impl<S: LinkedShard> MakesRounds<S> for NoStore {
    ghost serves = { λ m cells. Unit {0} };

    ghost has_kept = { λ begun m kept o run calls. HasLostNone o calls };

    ghost becomes = { λ m n. Unit {0} };

    fn make_round<R: Wait, P: CellCaller<CoreCells<S>>>(
        &mut self,
        rt: &R,
        board: &Board<CoreCells<S>>,
        caller: &mut P,
        size: &CoreSize,
    ) -> RoundResult {
        match open_round(rt, board, caller, size) {
            None => RoundResult::NoMemory,
            Some(asked) => close_as_safe(rt, board, caller, size, asked),
        }
    }

    ghost stays = { λ m. tt };

    ghost goes_on = { λ a b c one two. tt };
}

// Closes a round as safe that was opened. Where there was nothing to save, none was.
fn close_as_safe<S: LinkedShard, R: Wait, P: CellCaller<CoreCells<S>>>(
    rt: &R,
    board: &Board<CoreCells<S>>,
    caller: &mut P,
    size: &CoreSize,
    asked: RoundAnswer,
) -> RoundResult
    requires board { P.calls_on board.now caller.old }
    requires flusher { IsFlusherOf S.fits S.stands S.says (P.opening caller.old)
        (P.number caller.old) (size.now.sessions + 1) size.now.shards }
    requires knows { KnowsAfterOpening S.fits S.stands S.says (P.opening caller.old)
        (P.number caller.old) (size.now.sessions + 1) (Some asked) (P.own caller.old) }
    ensures board { P.calls_on board.now caller.new }
    ensures opening { P.opening caller.new ≡ P.opening caller.old }
    ensures number { P.number caller.new ≡ P.number caller.old }
    ensures others { P.others caller.new ≡ P.others caller.old }
    ensures result { result ≡ result_of_opening (Some asked) }
    ensures own { P.own caller.new
        ≡ P.own caller.old ++ closing_entries (P.number caller.old) (Some asked) }
    ensures between { KnowsBetween S.fits S.stands S.says (P.opening caller.new)
        (P.number caller.new) (size.now.sessions + 1) false (P.own caller.new) }
{
    match asked {
        RoundAnswer::Nothing { epoch } => RoundResult::Idle(epoch),
        RoundAnswer::Target { from: _, epoch } => {
            close_round(rt, board, caller, size, epoch, RoundEnd::Safe);
            RoundResult::Safe(epoch)
        }
    }
}
