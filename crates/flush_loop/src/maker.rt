//! The trait of what makes the flusher's rounds.
ghost use Rattle.std.specs.Prelude.{◌≡◌, ◌+◌, ◌≤◌, false, List};
ghost use Rattle.core_events.specs.Events.{Opening, ClientCall, CoreEvent};
ghost use Rattle.core_program.specs.Flushing.{IsFlusherOf};
ghost use Rattle.cube_core.specs.declared.cell.CoreCell.{CoreCell};
ghost use Rattle.cube_rounds.specs.Stands.{Kept};
ghost use Rattle.flush_loop.specs.MadeRounds.{GoesOnKeeping, HasKeptSince, KnowsBetween, LearnsOfOwnRound};
ghost use Rattle.flush_loop.specs.RoundResults.{loses_store};
ghost use Rattle.job_groups.specs.AskedEach.{AreShardMails, HasMore};
ghost use Rattle.turn_board.specs.Passes.{callers_of};

use crate::round_result::RoundResult;
use board_callers::CellCaller;
use core_program::{CoreCells, CoreSize};
use cube_core::LinkedShard;
use std::sync::Wait;
use turn_board::Board;

/// What makes the rounds of a core: the flusher opens one, keeps what it has of the shards, and closes
/// it as it then is.
pub trait MakesRounds<S: LinkedShard> {
    /// It makes rounds of a core that opened with these cells.
    ghost serves: { Self → List (CoreCell S) → Type 0 };

    /// Since it was begun, as it then was, it has kept this by now, of a run in which the flusher has made
    /// these calls, the newest first.
    ghost has_kept: { Self → Self → Kept → Opening → List CoreEvent → List ClientCall → Type 0 };

    /// What may become of it by rounds.
    ghost becomes: { Self → Self → Type 0 };

    /// Makes one round. The flusher is between two rounds and has not lost the store, and so it is
    /// afterwards, but that a round may have lost it. It makes no call on its own mail.
    fn make_round<R: Wait, P: CellCaller<CoreCells<S>>>(
        &mut self,
        rt: &R,
        board: &Board<CoreCells<S>>,
        caller: &mut P,
        size: &CoreSize,
    ) -> RoundResult
        requires board { P.calls_on board.now caller.old }
        requires callers { size.now.sessions + 2 + size.now.shards ≤ callers_of board.now }
        requires some { 1 ≤ size.now.shards }
        requires flusher { IsFlusherOf S.fits S.stands S.says (P.opening caller.old)
            (P.number caller.old) (size.now.sessions + 1) size.now.shards }
        requires mails { AreShardMails S.fits S.stands S.says (P.opening caller.old)
            (size.now.sessions + 1) size.now.shards (2 + size.now.shards) }
        requires serves { serves self.old (P.opening caller.old) }
        requires between { KnowsBetween S.fits S.stands S.says (P.opening caller.old)
            (P.number caller.old) (size.now.sessions + 1) false (P.own caller.old) }
        requires kept { HasKeptSince S.fits S.stands S.says (P.opening caller.old)
            (P.number caller.old) (size.now.sessions + 1) has_kept self.old (P.own caller.old) }
        ensures board { P.calls_on board.now caller.new }
        ensures opening { P.opening caller.new ≡ P.opening caller.old }
        ensures number { P.number caller.new ≡ P.number caller.old }
        ensures others { P.others caller.new ≡ P.others caller.old }
        ensures more { HasMore (P.own caller.old) (P.own caller.new) }
        ensures learns { LearnsOfOwnRound S.fits S.stands S.says (P.opening caller.old)
            (P.number caller.old) (size.now.sessions + 1) result (P.own caller.old)
            (P.own caller.new) }
        ensures between { KnowsBetween S.fits S.stands S.says (P.opening caller.new)
            (P.number caller.new) (size.now.sessions + 1) (loses_store result) (P.own caller.new) }
        ensures serves { serves self.new (P.opening caller.new) }
        ensures kept { GoesOnKeeping S.fits S.stands S.says (P.opening caller.old)
            (P.number caller.old) (size.now.sessions + 1) has_kept self.old self.new
            (P.own caller.old) (P.own caller.new) }
        ensures becomes { becomes self.old self.new };

    /// Without a round it stays what it is, and one round may come after others.
    ghost stays: { (m : Self) → becomes m m };

    ghost goes_on: { (a b c : Self) → becomes a b → becomes b c → becomes a c };
}
